// Tests at the edges of the bounds. Files are written here by shifts, apart from the reader's own way
// of taking bits.

#![tactic(auto)]

#[cfg(test)]
mod files {
    use ring::{Fault, Refusal};
    use round_file::{Header, Listing, Reader};
    use std::alloc::Global;
    use std::test::Fail;

    fn header(version: u64, ticks: u64, p: u64, q: u64, count: u64) -> [u8; 6] {
        let bits = ((version & 15) << 44)
            | ((ticks & 0x1_ffff) << 27)
            | ((p & 1023) << 17)
            | ((q & 1023) << 7)
            | (count & 127);
        let [_, _, a, b, c, d, e, f] = bits.to_be_bytes();
        [a, b, c, d, e, f]
    }

    #[derive(Clone, Copy)]
    struct Fields {
        number: u128,
        kind: u128,
        from: u128,
        width: u128,
        length: u128,
        note: u128,
    }

    fn record(fields: Fields) -> [u8; 10] {
        let Fields {
            number,
            kind,
            from,
            width,
            length,
            note,
        } = fields;
        let high = ((number & 0xf_ffff) << 60) | ((kind & 3) << 58) | ((from & 0x1_ffff) << 41);
        let bits = high | ((width & 0x1_ffff) << 24) | ((length & 0xffff) << 8) | (note & 0xff);
        let [_, _, _, _, _, _, a, b, c, d, e, f, g, h, i, j] = bits.to_be_bytes();
        [a, b, c, d, e, f, g, h, i, j]
    }

    // Records read, the fault's record and number, bytes unread.
    type Told = (usize, Option<(u8, u8)>, usize);

    fn told(heap: Global, bytes: &[u8]) -> Told {
        let of_fault = |fault: Fault| (fault.record, fault.refusal.number());
        match Listing::read(heap, bytes) {
            Err(fault) => (0, Some(of_fault(fault)), 0),
            Ok(listing) => {
                let read = listing.records.len();
                (read, listing.fault.map(of_fault), listing.left)
            }
        }
    }

    #[test]
    fn headers(rt: HostRuntime) {
        let heap = rt.alloc();
        let empty = header(1, 100, 1, 1, 0);
        assert_eq!(rt; told(heap, &empty[0..5]), (0, Some((0, 12)), 0));
        assert_eq!(rt; told(heap, &empty), (0, None, 0));
        let table = [
            (header(0, 100, 1, 1, 0), Some(13)),
            (header(2, 100, 1, 1, 65), Some(13)),
            (header(1, 0, 1, 1, 65), Some(14)),
            (header(1, 0, 0, 1, 64), Some(1)),
            (header(1, 86_401, 1, 1, 0), Some(1)),
            (header(1, 86_400, 0, 1, 0), Some(2)),
            (header(1, 1, 1_001, 1, 0), Some(2)),
            (header(1, 1, 1_000, 0, 0), Some(2)),
            (header(1, 1, 1_000, 1_001, 0), Some(2)),
            (header(1, 86_400, 1_000, 1_000, 0), None),
        ];
        for (bytes, number) in table.iter() {
            assert_eq!(rt; told(heap, bytes), (0, number.map(|n| (0, n)), 0));
        }
        assert_eq!(rt;
            told(heap, &header(1, 100, 1, 1, 64)),
            (0, Some((1, 12)), 0)
        );
    }

    // A file with one record, and `note` bytes behind it, on a ring of 100 ticks.
    fn file_of(heap: Global, fields: Fields, note: usize) -> Result<Vec<u8>, Fail> {
        let mut bytes = header(1, 100, 1, 1, 1).to_vec(heap)?;
        bytes.extend_from_slice(&record(fields))?;
        bytes.resize(bytes.len().saturating_add(note), 7)?;
        Ok(bytes)
    }

    fn unnoted(number: u128, kind: u128, from: u128, width: u128, length: u128) -> Fields {
        Fields {
            number,
            kind,
            from,
            width,
            length,
            note: 0,
        }
    }

    #[test]
    fn records(rt: HostRuntime) -> Result<(), Fail> {
        let heap = rt.alloc();
        let table = [
            (unnoted(0, 3, 0, 0, 1), Some(3)),
            (unnoted(1, 3, 0, 0, 1), Some(4)),
            (unnoted(1_048_575, 0, 99, 99, 40_000), None),
            (unnoted(1, 0, 100, 0, 1), Some(4)),
            (unnoted(1, 1, 0, 100, 1), Some(4)),
            (unnoted(1, 1, 0, 0, 0), Some(4)),
            (unnoted(1, 1, 0, 0, 40_001), Some(4)),
            (unnoted(1, 2, 0, 0, 0), Some(4)),
            (unnoted(1, 2, 0, 0, 1_023), None),
            (unnoted(1, 2, 0, 0, 1_024), Some(4)),
        ];
        for (given, number) in table.iter() {
            let bytes = file_of(heap, *given, 0)?;
            let expected = match *number {
                None => (1, None, 0),
                Some(number) => (0, Some((1, number)), 10),
            };
            assert_eq!(rt; told(heap, bytes.as_slice()), expected);
        }
        Ok(())
    }

    #[test]
    fn notes_and_ends(rt: HostRuntime) -> Result<(), Fail> {
        let heap = rt.alloc();
        let noted = Fields {
            number: 5,
            kind: 0,
            from: 0,
            width: 0,
            length: 1,
            note: 3,
        };
        let whole = file_of(heap, noted, 4)?;
        assert!(rt; whole.len() == 20);
        // the record's bytes one short, the note's one short, none left, one left
        let table = [
            (15, (0, Some((1, 12)), 9)),
            (18, (0, Some((1, 12)), 12)),
            (19, (1, None, 0)),
            (20, (1, Some((1, 16)), 1)),
        ];
        for (size, expected) in table.iter() {
            assert!(rt; *size <= 20);
            assert_eq!(rt; told(heap, &whole.as_slice()[0..*size]), *expected);
        }
        Ok(())
    }

    #[test]
    fn asked_again(rt: HostRuntime) -> Result<(), Fail> {
        let heap = rt.alloc();
        let bytes = file_of(heap, unnoted(9, 1, 40, 0, 10), 1)?;
        let header = Header::open(bytes.as_slice())?;
        let mut reader = Reader::new(bytes.as_slice(), header);
        let record = reader.next()?.ok_or("no record")?;
        assert_eq!(rt; record.number(), 9);
        assert_eq!(rt; record.note().place, 16);
        assert!(rt; reader.next()?.is_none());
        assert!(rt; reader.next()?.is_none());
        assert_eq!(rt; reader.left(), 1);
        let short = &bytes.as_slice()[0..7];
        let mut reader = Reader::new(short, header);
        for _ in 0..2 {
            assert!(rt; matches!(reader.next(), Err(Refusal::BytesMissing)));
            assert_eq!(rt; reader.cursor().place, 6);
        }
        Ok(())
    }
}

#[cfg(test)]
mod stays {
    use placement::{Stay, Window};

    pub fn trailing(from: u32, width: u32, trail: u32) -> Stay {
        Stay {
            window: Window { from, width },
            lead: 0,
            trail,
        }
    }
}

#[cfg(test)]
mod seatings {
    use crate::stays::trailing;
    use placement::{Seating, Window, is_order, own_order};
    use ring::{Pace, Ring};
    use std::test::Fail;

    #[test]
    fn own_orders(rt: HostRuntime) -> Result<(), Fail> {
        let order = own_order(rt.alloc(), 3)?;
        assert_eq!(rt; order.as_slice(), [0usize, 1, 2].as_slice());
        assert!(rt; is_order(&order, 3));
        assert!(rt; own_order(rt.alloc(), 0)?.is_empty());
        Ok(())
    }

    // On 200, lengths 60, 30 and 30 in windows (0, 60).
    #[test]
    fn three(rt: HostRuntime) -> Result<(), Fail> {
        let list = [
            trailing(0, 60, 60),
            trailing(0, 60, 30),
            trailing(0, 60, 30),
        ];
        let order = [0usize, 1, 2].to_vec(rt.alloc())?;
        let times = [60u64, 200, 230].to_vec(rt.alloc())?;
        let seating = Seating { order, times };
        let (ring, pace) = (Ring::new(200)?, Pace::new(1, 1)?);
        assert!(rt; seating.lawful(ring, pace, &list));
        assert!(rt; !seating.lawful(Ring::new(199)?, pace, &list));
        assert!(rt; !seating.lawful(ring, Pace::new(2, 1)?, &list));
        assert!(rt; !seating.lawful(ring, pace, &list[0..2]));
        assert_eq!(rt; seating.position(ring, 2), Some(30));
        assert_eq!(rt; seating.position(ring, 3), None);
        Ok(())
    }

    #[test]
    fn left_out_and_turned(rt: HostRuntime) -> Result<(), Fail> {
        let order = [0usize, 2, 1].to_vec(rt.alloc())?;
        let times = [60u64, 200, 230].to_vec(rt.alloc())?;
        let mut seating = Seating { order, times };
        let ring = Ring::new(200)?;
        seating.without(ring, 0);
        assert_eq!(rt; seating.order.as_slice(), [0usize, 1].as_slice());
        assert_eq!(rt; seating.times.as_slice(), [30u64, 200].as_slice());
        seating.begin_again(ring, 1);
        assert_eq!(rt; seating.order.as_slice(), [1usize, 0].as_slice());
        assert_eq!(rt; seating.times.as_slice(), [0u64, 30].as_slice());
        Ok(())
    }

    #[test]
    fn windows(rt: HostRuntime) -> Result<(), Fail> {
        let ring = Ring::new(100)?;
        let wrapped = Window {
            from: 95,
            width: 10,
        };
        assert!(rt; wrapped.holds(ring, 105));
        assert!(rt; !wrapped.holds(ring, 106));
        assert_eq!(rt; wrapped.offset(ring, 0), 5);
        assert_eq!(rt; wrapped.earliest(ring, 106), Some(195));
        assert_eq!(rt; wrapped.earliest(ring, 199), Some(199));
        assert_eq!(rt; Window { from: 7, width: 0 }.earliest(ring, u64::MAX), None);
        Ok(())
    }
}

#[cfg(test)]
mod searches {
    use crate::stays::trailing;
    use ring::{Pace, Ring};
    use search::{NotFound, search};
    use std::test::Fail;

    // Lengths 60, 30 and 30 fill a ring of 120.
    #[test]
    fn three(rt: HostRuntime) -> Result<(), Fail> {
        let list = [
            trailing(0, 90, 60),
            trailing(0, 90, 30),
            trailing(0, 90, 30),
        ];
        let pace = Pace::new(1, 1)?;
        let (fits, short) = (Ring::new(120)?, Ring::new(119)?);
        let seating = search(rt.alloc(), fits, pace, &list)?;
        assert!(rt; seating.lawful(fits, pace, &list));
        let refusal = search(rt.alloc(), short, pace, &list).err();
        assert_eq!(rt; refusal, Some(NotFound::NoneLawful));
        Ok(())
    }

    // The length is asked before the bounds.
    #[test]
    fn refusals(rt: HostRuntime) -> Result<(), Fail> {
        let (ring, pace) = (Ring::new(100)?, Pace::new(1, 1)?);
        let wide = [trailing(0, 100, 1); 65];
        let refusal = search(rt.alloc(), ring, pace, &wide).err();
        assert_eq!(rt; refusal, Some(NotFound::TooMany));
        let refusal = search(rt.alloc(), ring, pace, &wide[1..]).err();
        assert_eq!(rt; refusal, Some(NotFound::OutOfBounds));
        Ok(())
    }

    #[test]
    fn texts(rt: HostRuntime) -> Result<(), Fail> {
        let (many, out) = (NotFound::TooMany, NotFound::OutOfBounds);
        let (none, memory) = (NotFound::NoneLawful, NotFound::NoMemory);
        let text = format!(in rt.alloc(); "{many}, {out}, {none}, {memory}")?;
        assert_eq!(rt;
            text.as_str(),
            "more than 64 stays, a stay is out of bounds, no lawful seating, no memory"
        );
        Ok(())
    }
}

#[cfg(test)]
mod trying {
    use crate::stays::trailing;
    use ring::{Ratio, Ring};
    use std::test::Fail;
    use trials::{NoSeating, try_order};

    // On 100 the two lengths of 60 are too long, at 1/1 and not at 1/2.
    #[test]
    fn refusals(rt: HostRuntime) -> Result<(), Fail> {
        let ring = Ring::new(100)?;
        let list = [trailing(0, 99, 60), trailing(0, 99, 60)];
        let half = Ratio::new(1, 2).ok_or("no ratio")?;
        let tried = |ratio: Ratio, order: &[usize]| {
            try_order(rt.alloc(), ring, ratio, &list, order).err()
        };
        assert_eq!(rt;
            tried(Ratio::whole(1), &[0, 1]),
            Some(NoSeating::NoneCloses)
        );
        assert_eq!(rt;
            tried(Ratio::whole(1), &[0, 0]),
            Some(NoSeating::NotAnOrder)
        );
        assert_eq!(rt; tried(half, &[1, 0]), None);
        let wide = [trailing(0, 100, 1)];
        let refusal = try_order(rt.alloc(), ring, half, &wide, &[1]).err();
        assert_eq!(rt; refusal, Some(NoSeating::OutOfBounds));
        Ok(())
    }
}

ghost use Rattle.std.specs.Prelude.{◌≡◌, ◌+◌, ◌<◌};

// Where a reader stands: the first byte of the next record, and how many were read.
#[derive(Clone, Copy, PartialEq, Eq, Debug)]
pub struct Cursor {
    pub place: usize,
    pub read: u8,
}

// Puts the cursor back to where it stood, unless it is disarmed.
pub struct Guard<'a> {
    pub cursor: &'a mut Cursor,
    start: usize,
}

impl Drop for Guard<'_> {
    // A guard is taken apart field by field: `..` lets `drop` run, and after `mem::forget` the check
    // knows nothing of the cursor.
    fn drop(self)
        ensures place { self.exit.0.now.place ≡ self.entry.start }
        ensures read { self.exit.0.now.read ≡ self.entry.cursor.now.read }
    {
        self.cursor.place = self.start;
        let Guard {
            cursor: _,
            start: _,
        } = self;
    }
}

impl<'a> Guard<'a> {
    pub fn new(cursor: &'a mut Cursor) -> Guard<'a>
        ensures start { result.start ≡ cursor.old.place }
        ensures held { result.cursor.now ≡ cursor.old }
        ensures named { result.cursor.ghost_name ≡ cursor.entry.ghost_name }
    {
        let start = cursor.place;
        Guard { cursor, start }
    }

    // The record is accepted: the place stays, and one more is read.
    pub fn disarm(self)
        requires { self.cursor.now.read < 255 }
        ensures place { self.exit.0.now.place ≡ self.entry.cursor.now.place }
        ensures read { self.exit.0.now.read ≡ self.entry.cursor.now.read + 1 }
    {
        self.cursor.read += 1;
        let Guard {
            cursor: _,
            start: _,
        } = self;
    }
}

// A seater's answers, held to what the rules say.
ghost use Rattle.std.specs.Prelude.{◌≡◌, ◌≢◌, Err, MatchResult};
ghost use Rattle.seaters.specs.declared.errors.NotSeated.TheVariants.{NoMemory};

use crate::cases::Case;
use crate::definition::{Answer, Rule};
use crate::layers::{Layer, expect};
use placement::Seating;
use seaters::{NotSeated, Seater};
use std::alloc::{AllocError, Global};
use std::fmt;

// How often each answer came.
#[derive(Clone, Copy, Default)]
pub struct Tally {
    seated: u64,
    not_granted: u64,
    not_taken: u64,
}

impl Tally {
    // Want of memory is no answer, and is not counted.
    pub fn add(&mut self, answer: Answer)
        ensures { answer ≡ Err NoMemory → self.new ≡ self.old }
    {
        let counted = match answer {
            Ok(()) => &mut self.seated,
            Err(NotSeated::NoneGranted) => &mut self.not_granted,
            Err(NotSeated::NotTaken) => &mut self.not_taken,
            Err(NotSeated::NoMemory) => return,
        };
        *counted = counted.saturating_add(1);
    }
}

impl fmt::Display for Tally {
    fn fmt<W: fmt::Write>(&self, f: &mut fmt::Formatter<W>) -> fmt::Result {
        let Tally {
            seated,
            not_granted,
            not_taken,
        } = *self;
        write!(
            f,
            "seated {seated}, not granted {not_granted}, not taken {not_taken}"
        )
    }
}

// The answer itself; want of memory is none, and is an error.
pub fn answered(answer: Answer) -> Result<Answer, NotSeated>
    ensures { MatchResult result (λ a. (a ≡ answer) × (answer ≢ Err NoMemory)) (λ e. (e ≡ NoMemory) × (answer ≡ Err NoMemory)) }
{
    match answer {
        Err(NotSeated::NoMemory) => Err(NotSeated::NoMemory),
        _ => Ok(answer),
    }
}

// What is wrong with an answer.
#[derive(Clone, Copy)]
pub enum Wrong {
    // the rules say another
    Answer,
    // the seating is not lawful for the list, as the library says
    Unlawful,
    // its positions do not fit, by the rules
    Overlaps,
    // the seating is not in the list's order
    OutOfOrder,
    // the place has changed, though nothing was seated
    PlaceChanged,
}

impl fmt::Display for Wrong {
    fn fmt<W: fmt::Write>(&self, f: &mut fmt::Formatter<W>) -> fmt::Result {
        f.write_str(match self {
            Wrong::Answer => "the rules say another",
            Wrong::Unlawful => "the seating is not lawful",
            Wrong::Overlaps => "its positions do not fit",
            Wrong::OutOfOrder => "the seating is not in the list's order",
            Wrong::PlaceChanged => "the place has changed",
        })
    }
}

// A case on which a seater and the rules disagree.
#[derive(Drop)]
pub struct Disagreement {
    pub case: usize,
    pub expected: Answer,
    pub given: Answer,
    pub wrong: Wrong,
    pub place: Seating,
}

#[derive(Drop)]
pub struct Compared {
    pub tally: Tally,
    pub disagreements: u64,
    pub first: Option<Disagreement>,
}

// A seating of no list: its order and its times differ in length.
fn marked(heap: Global) -> Result<Seating, AllocError> {
    let mut place = Seating::empty(heap);
    place.order.push(7)?;
    place.times.push(70)?;
    place.times.push(71)?;
    Ok(place)
}

fn is_marked(place: &Seating) -> bool {
    matches!(place.order.as_slice(), [7]) && matches!(place.times.as_slice(), [70, 71])
}

fn in_list_order(order: &[usize]) -> bool {
    order.iter().copied().eq(0..order.len())
}

// What is wrong with a seating of the list of a case.
fn judge_seating(
    heap: Global,
    rule: Rule,
    case: &Case,
    place: &Seating,
) -> Result<Option<Wrong>, AllocError> {
    if !place.lawful(case.ring, case.pace, &case.stays) {
        return Ok(Some(Wrong::Unlawful));
    }
    if !case.list().positions_fit(heap, place)? {
        return Ok(Some(Wrong::Overlaps));
    }
    match rule {
        Rule::ListOrder if !in_list_order(&place.order) => Ok(Some(Wrong::OutOfOrder)),
        _ => Ok(None),
    }
}

// What is wrong with an answer, where the place held the marked seating before.
fn judge(
    heap: Global,
    rule: Rule,
    case: &Case,
    expected: Answer,
    given: Answer,
    place: &Seating,
) -> Result<Option<Wrong>, AllocError> {
    if given != expected {
        return Ok(Some(Wrong::Answer));
    }
    match given {
        Ok(()) => judge_seating(heap, rule, case, place),
        Err(_) if is_marked(place) => Ok(None),
        Err(_) => Ok(Some(Wrong::PlaceChanged)),
    }
}

// Puts every case to the seater that is made for it. By the rules that is one under these layers.
pub fn compare<S: Seater + Drop, F: Fn(&Case) -> S>(
    heap: Global,
    rule: Rule,
    layers: &[Layer],
    seater: F,
    cases: &[Case],
) -> Result<Compared, NotSeated>
    requires { F.IsAlwaysCallable seater }
{
    let mut compared = Compared {
        tally: Tally::default(),
        disagreements: 0,
        first: None,
    };
    for (i, case) in cases.iter().enumerate() {
        let expected = answered(expect(heap, rule, layers, case))?;
        let mut place = marked(heap)?;
        let asked = seater(case);
        let given = answered(asked.seat(heap, case.ring, case.pace, &case.stays, &mut place))?;
        compared.tally.add(given);
        if let Some(wrong) = judge(heap, rule, case, expected, given, &place)? {
            compared.disagreements = compared.disagreements.saturating_add(1);
            if compared.first.is_none() {
                compared.first = Some(Disagreement {
                    case: i,
                    expected,
                    given,
                    wrong,
                    place,
                });
            }
        }
    }
    Ok(compared)
}

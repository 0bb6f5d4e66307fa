// The refusals of document 01: every crate above answers with these.
#![tactic(auto)]

ghost use Rattle.std.specs.Prelude.{◌≡◌};
ghost use Rattle.refusal.specs.Refusals.{number_of, place_of};

// A refusal of document 01, with its place: a case for each row of the document's list, in its order.
#[derive(Clone, Copy)]
pub enum Refusal {
    Missing(usize),
    Extra(usize),
    Count(usize),
    Domain(usize),
    Partner(usize),
    Weight(usize),
    Mask(usize),
    Choice,
    Room(usize),
    Length(usize),
    Entry(usize),
    Broken(usize),
    Line(usize),
}

// The document's number of a refusal.
pub fn number(f: Refusal) -> u32
    ensures { result ≡ number_of f }
{
    match f {
        Refusal::Missing(_) => 1,
        Refusal::Extra(_) => 2,
        Refusal::Count(_) => 3,
        Refusal::Domain(_) => 4,
        Refusal::Partner(_) => 5,
        Refusal::Weight(_) => 6,
        Refusal::Mask(_) => 7,
        Refusal::Choice => 8,
        Refusal::Room(_) => 9,
        Refusal::Length(_) => 10,
        Refusal::Entry(_) => 11,
        Refusal::Broken(_) => 12,
        Refusal::Line(_) => 13,
    }
}

// The document's place of a refusal.
pub fn place(f: Refusal) -> usize
    ensures { result ≡ place_of f }
{
    match f {
        Refusal::Missing(place)
        | Refusal::Extra(place)
        | Refusal::Count(place)
        | Refusal::Domain(place)
        | Refusal::Partner(place)
        | Refusal::Weight(place)
        | Refusal::Mask(place)
        | Refusal::Room(place)
        | Refusal::Length(place)
        | Refusal::Entry(place)
        | Refusal::Broken(place)
        | Refusal::Line(place) => place,
        Refusal::Choice => 0,
    }
}

// The places of a catalogue, looked through and written to: 64 of 5,408 numbers each, and behind them the kept count.
ghost use Rattle.std.specs.Prelude.{◌≡◌, ◌+◌, ◌*◌, ◌<◌, ◌≤◌, length, slice_set};
ghost use Rattle.terms.specs.Theory.Reflects.{Reflects};
ghost use Rattle.catalogue.specs.Catalogue as abstract;
ghost use Rattle.catalogue.specs.Stored as stored;
ghost use Rattle.catalogue.specs.Stored.{KindAt};
ghost use Rattle.catalogue.specs.Promises.{Seeks, ListAt, OtherOf, AnotherOf, StoresList, Stores};

use std::marker::Model;
use terms::copy::overwrite;

pub const PLACES: usize = 64;

pub const PLACE: usize = 5408;

// The most numbers of a list.
pub const ROOM: usize = 2700;

// Where the kept count stands.
pub const COUNT: usize = PLACES * PLACE;

// The length of the buffer.
pub const LENGTH: usize = COUNT + 1;

// The number that a free place has; no entry has it.
pub const FREE: u32 = 0;

// Of a place, where its key, the lengths of its two lists and the lists themselves stand; its first number is the entry's.
pub const KEY: usize = 1;

pub const LEFT_LENGTH: usize = 2;

pub const RIGHT_LENGTH: usize = 3;

pub const LEFT: usize = 8;

pub const RIGHT: usize = LEFT + ROOM;

// A place of a catalogue, by its number.
#[derive(Clone, Copy, PartialEq, Eq)]
pub struct Place {
    k: usize,
}

// Clauses see the number.
impl Model for Place {
    ghost use Rattle.std.specs.Prelude.{ℕ, ◌<◌};
    ghost use Rattle.catalogue.specs.Catalogue as abstract;

    ghost Value = { ℕ };

    ghost view = { λ p. p.k };

    ghost invariant = { λ p. p.k < abstract.PLACES };

    ghost inverse = { λ k. record { k = k } };
}

impl Place {
    // Place number k.
    pub fn numbered(k: usize) -> Place
        requires { k < abstract.PLACES }
        ensures { result ≡ k }
    {
        Place { k }
    }

    // Where its first number stands.
    pub fn start(self) -> usize
        ensures is { result ≡ stored.PLACE * self }
        ensures within { self < abstract.PLACES }
    {
        PLACE * self.k
    }
}

// What makes two entries of one kind: the number of their key, and the two lists of their lines.
#[derive(Clone, Copy)]
pub struct Kind<'a> {
    // As a number: what a place stores may be no key's.
    pub key: u32,
    pub left: &'a [u32],
    pub right: &'a [u32],
    ghost left_fits: { length left.now ≤ stored.ROOM },
    ghost right_fits: { length right.now ≤ stored.ROOM },
}

// A catalogue and a place in it go side by side from here on: of a struct with both each contract would have to say that it is the same catalogue
// still.

// The first place that has a number; free places have `FREE`.
pub fn place_of(catalogue: &[u32; LENGTH], n: u32) -> Option<Place>
    ensures { Seeks catalogue.now n result }
{
    let k = (0..PLACES).find(|&k| catalogue[PLACE * k] == n)?;
    Some(Place::numbered(k))
}

// Whether a list stands from one position on, with its length at another.
fn has_list(catalogue: &[u32; LENGTH], size: usize, from: usize, list: &[u32]) -> bool
    requires { (size < stored.LENGTH) × (from + stored.ROOM ≤ stored.LENGTH) × (length list.now ≤ stored.ROOM) }
    ensures { Reflects (ListAt catalogue.now size from list.now) result }
{
    catalogue[size] as usize == list.len() && catalogue[from..].starts_with(list)
}

// Whether a place has an entry of the kind.
fn has_kind_at(catalogue: &[u32; LENGTH], place: Place, kind: Kind<'_>) -> bool
    ensures { Reflects (KindAt catalogue.now place kind.entry.key kind.entry.left.now kind.entry.right.now) result }
{
    let at = place.start();
    catalogue[at + KEY] == kind.key
        && has_list(catalogue, at + LEFT_LENGTH, at + LEFT, kind.left)
        && has_list(catalogue, at + RIGHT_LENGTH, at + RIGHT, kind.right)
}

// Whether a place is another than `but` and has an entry of the kind.
fn is_another(catalogue: &[u32; LENGTH], place: Place, but: Option<Place>, kind: Kind<'_>) -> bool
    ensures { Reflects (OtherOf catalogue.now but kind.entry.key kind.entry.left.now kind.entry.right.now place) result }
{
    but != Some(place) && catalogue[place.start()] != FREE && has_kind_at(catalogue, place, kind)
}

// Whether a place other than `but` has an entry of the kind.
pub fn has_another(catalogue: &[u32; LENGTH], but: Option<Place>, kind: Kind<'_>) -> bool
    ensures { Reflects (AnotherOf catalogue.now but kind.entry.key kind.entry.left.now kind.entry.right.now) result }
{
    (0..PLACES).any(|k| is_another(catalogue, Place::numbered(k), but, kind))
}

// Stores a list from one position on, and its length at another before it.
fn store_list(catalogue: &mut [u32; LENGTH], size: usize, from: usize, list: &[u32])
    requires { (size < from) × (from + stored.ROOM ≤ stored.LENGTH) × (length list.now ≤ stored.ROOM) }
    ensures { StoresList catalogue.old size from list.now catalogue.new }
{
    catalogue[size] = list.len() as u32;
    let end = from + list.len();
    overwrite(&mut catalogue[from..end], list);
}

// Stores an entry in a place.
pub fn store(catalogue: &mut [u32; LENGTH], place: Place, n: u32, kind: Kind<'_>)
    ensures within { place < abstract.PLACES }
    ensures stored { Stores catalogue.old place n kind.entry.key kind.entry.left.now kind.entry.right.now catalogue.new }
{
    let at = place.start();
    catalogue[at] = n;
    catalogue[at + KEY] = kind.key;
    store_list(catalogue, at + LEFT_LENGTH, at + LEFT, kind.left);
    store_list(catalogue, at + RIGHT_LENGTH, at + RIGHT, kind.right);
}

// Sets the kept count: what a call that leaves it so answers.
pub fn set_count(catalogue: &mut [u32; LENGTH], n: u32) -> usize
    ensures { (result ≡ n) × (catalogue.new ≡ slice_set catalogue.old stored.COUNT n) }
{
    catalogue[COUNT] = n;
    n as usize
}

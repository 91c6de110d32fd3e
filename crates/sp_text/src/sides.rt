//! Lines in two vectors with a gap between them, of which each line that it passes is told to an index of ids.
//! Lines that a change pairs with others of their ids are exchanged where they stand; for more it moves the gap to its place, and
//! then lines go in and out there.
ghost use Rattle.std.specs.Prelude.{◌≡◌, ℕ, ◌+◌, ◌-◌, ◌^◌, ◌<◌, ◌≤◌, ◌≢◌, ◌==◌, ◌++◌, [], AllPairs, length, reverse, take, drop, position, slice_get, slice_index, slice_set, IfErr, IfOk, OnOk, IsOk, vec_len, vec_capacity};
ghost use Rattle.spec_text.specs.Lines.{LineState};
ghost use Rattle.spec_text.specs.Edits.{exchanged, line_ids, relabelled, stretch};
ghost use Rattle.sp_text.specs.Gap.{HaveOwnIds, IsPairedRound, lines_round, rest_exchanged, rest_len};
ghost use Rattle.sp_text.specs.Index.{Indexes, index_room};

use crate::Line;
use crate::index::{Entry, Index, Kind, Side};
use sp_gap::{make_room, pour};
use std::alloc::{AllocError, Global};
use std::marker::Model;
use std::mem;

/// Lines before a gap in order, lines behind it from the last to the first, and where the line of an id stands.
#[derive(Drop)]
pub struct Sides {
    front: Vec<Line>,
    back: Vec<Line>,
    index: Index,
}

impl Model for Sides {
    ghost use Rattle.sp_text.specs.Gap.{AreSides, GapState, sides_state};

    ghost Value = { GapState };

    ghost view = { λ s. sides_state s.front s.back s.index };

    ghost invariant = { λ s. AreSides s.front s.back s.index };
}

impl Sides {
    /// These lines, with the gap behind them, a vector with as much room for those behind it, and an index. Where there is no memory
    /// for that, they are handed back.
    pub fn new(front: Vec<Line>, back: Vec<Line>) -> Result<Sides, Vec<Line>>
        requires none { back.items ≡ [] }
        requires room { vec_capacity back ≡ vec_capacity front }
        requires own { HaveOwnIds front.items }
        ensures lines { IfOk result (λ sides. sides.lines ≡ front.items) }
        ensures room { IfOk result (λ sides. sides.room ≡ vec_capacity front) }
        ensures handed_back { IfErr result (λ lines. lines.items ≡ front.items) }
    {
        match Index::new(
            *front.allocator(),
            front.capacity(),
            front.as_slice(),
            back.as_slice(),
        ) {
            Ok(index) => Ok(Sides { front, back, index }),
            Err(_) => Err(front),
        }
    }

    /// Where its memory comes from.
    pub fn allocator(&self) -> Global {
        *self.front.allocator()
    }

    /// How many lines it has.
    pub fn len(&self) -> usize
        ensures len { result ≡ length self.now.lines }
        ensures room { result ≤ self.now.room }
    {
        self.front.len() + self.back.len()
    }

    /// Lends the line at a place.
    pub fn at(&self, i: usize) -> &Line
        requires { i < length self.now.lines }
        ensures { slice_get self.now.lines i ≡ Some result.now }
    {
        line_at(&self.front, &self.back, i)
    }

    /// The place of the line with this id, or None where no line has it.
    pub fn place(&self, id: u64) -> Option<usize>
        requires { HaveOwnIds self.now.lines }
        ensures { result ≡ position (λ (line : LineState). line.id == id) self.now.lines }
    {
        match self.index.find(id) {
            Some(entry) => match entry.side {
                Side::Front => Some(entry.at as usize),
                Side::Back => Some(self.len() - 1 - entry.at as usize),
            },
            None => None,
        }
    }

    /// Makes room for so many lines. It takes memory only where there isn't room for them.
    pub fn make_room(&mut self, count: usize) -> Result<(), AllocError>
        ensures lines { self.new.lines ≡ self.old.lines }
        ensures grows { self.old.room ≤ self.new.room }
        ensures ok { OnOk result (count ≤ self.new.room) }
        ensures succeeds { count ≤ self.old.room → IsOk result }
    {
        make_room(&mut self.front, count)?;
        make_room(&mut self.back, count)?;
        self.index
            .make_room(count, self.front.as_slice(), self.back.as_slice())
    }

    /// Puts these lines in the place of so many, and leaves those in their place. It takes no memory.
    pub fn exchange(&mut self, first: usize, stands: usize, lines: &mut Vec<Line>)
        requires place { first + stands ≤ length self.old.lines }
        requires distinct { HaveOwnIds (exchanged self.old.lines first stands lines.old.items) }
        requires room { length self.old.lines - stands + length lines.old.items ≤ self.old.room }
        requires lines_room { stands ≤ vec_capacity lines.old }
        ensures lines { self.new.lines ≡ exchanged self.old.lines first stands lines.old.items }
        ensures out { lines.new.items ≡ stretch self.old.lines first stands }
        ensures kept_room { self.new.room ≡ self.old.room }
        ensures kept_lines_room { vec_capacity lines.new ≡ vec_capacity lines.old }
    {
        let paired = swap_paired(&mut self.front, &mut self.back, lines, first, stands);
        if paired == stands.max(lines.len()) {
            return;
        }
        let place = first + paired;
        seek(&mut self.front, &mut self.back, &mut self.index, place);
        exchange_told(
            &mut self.front,
            &mut self.back,
            &mut self.index,
            lines,
            paired,
            stands - paired,
        );
    }

    /// Gives the lines these ids and marks, one by one. It takes no memory.
    pub fn relabel(&mut self, ids: &[u64], marks: &[u8])
        requires ids { length ids.now ≡ length self.old.lines }
        requires marks { length marks.now ≡ length self.old.lines }
        requires distinct { AllPairs (λ (one other : ℕ). one ≢ other) ids.now }
        ensures lines { self.new.lines ≡ relabelled self.old.lines ids.now marks.now }
        ensures room { self.new.room ≡ self.old.room }
    {
        let behind = self.back.len();
        pour(&mut self.back, &mut self.front, behind);
        relabel_lines(&mut self.front, ids, marks);
        self.index
            .rebuild(self.front.as_slice(), self.back.as_slice());
    }
}

/// Gives lines these ids and marks, one by one.
fn relabel_lines(lines: &mut Vec<Line>, ids: &[u64], marks: &[u8])
    requires ids { length ids.now ≡ length lines.old.items }
    requires marks { length marks.now ≡ length lines.old.items }
    ensures lines { lines.new.items ≡ relabelled lines.old.items ids.now marks.now }
    ensures len { vec_len lines.new ≡ vec_len lines.old }
    ensures capacity { vec_capacity lines.new ≡ vec_capacity lines.old }
{
    for at in 0..lines.len() {
        relabel_line(&mut lines[at], ids[at], marks[at]);
    }
}

/// Gives a line this id and mark.
pub fn relabel_line(line: &mut Line, id: u64, mark: u8)
    ensures { line.new ≡ record { id = id; mark = mark; text = line.old.text } }
{
    line.id = id;
    line.mark = mark;
}

/// Takes lines from the end of one side and puts them at the end of the other, which is this side, and tells the index of each.
fn move_told(from: &mut Vec<Line>, to: &mut Vec<Line>, index: &mut Index, side: Side, count: usize)
    requires there { count ≤ vec_len from.old }
    requires room { vec_len to.old + count ≤ vec_capacity to.old }
    requires few { vec_len to.old + count < 2 ^ 32 }
    requires index { Indexes side (line_ids to.old.items) (line_ids from.old.items) index.old }
    ensures index { Indexes side (line_ids to.new.items) (line_ids from.new.items) index.new }
    ensures lines { lines_round to.new from.new ≡ lines_round to.old from.old }
    ensures from_len { vec_len from.new + count ≡ vec_len from.old }
    ensures to_len { vec_len to.new ≡ vec_len to.old + count }
    ensures from_room { vec_capacity from.new ≡ vec_capacity from.old }
    ensures to_room { vec_capacity to.new ≡ vec_capacity to.old }
    ensures index_len { length index.new ≡ length index.old }
{
    let mut guess = 0;
    for done in 0..count {
        guess = move_line(from, to, index, side, guess);
    }
}

/// Moves one line to the other side, which is this side, and answers where its neighbour's entry may be.
fn move_line(
    from: &mut Vec<Line>,
    to: &mut Vec<Line>,
    index: &mut Index,
    side: Side,
    guess: usize,
) -> usize
    requires there { 0 < vec_len from.old }
    requires room { vec_len to.old < vec_capacity to.old }
    requires few { vec_len to.old < 2 ^ 32 }
    requires index { Indexes side (line_ids to.old.items) (line_ids from.old.items) index.old }
    ensures index { Indexes side (line_ids to.new.items) (line_ids from.new.items) index.new }
    ensures lines { lines_round to.new from.new ≡ lines_round to.old from.old }
    ensures from_len { vec_len from.new + 1 ≡ vec_len from.old }
    ensures to_len { vec_len to.new ≡ vec_len to.old + 1 }
    ensures from_room { vec_capacity from.new ≡ vec_capacity from.old }
    ensures to_room { vec_capacity to.new ≡ vec_capacity to.old }
    ensures index_len { length index.new ≡ length index.old }
{
    let line = from.take_last();
    let entry = Entry {
        id: line.id,
        at: to.len() as u32,
        side,
        kind: Kind::Held,
    };
    let place = index.tell(guess, entry);
    to.push_reserved(line);
    neighbour(side, place)
}

/// Where the entry of the next line may be that goes to this side: lines that stand together mostly have ids that do.
fn neighbour(side: Side, place: usize) -> usize {
    match side {
        Side::Front => place.saturating_add(1),
        Side::Back => place.saturating_sub(1),
    }
}

/// Moves the gap so that as many lines as asked stand before it.
fn seek(front: &mut Vec<Line>, back: &mut Vec<Line>, index: &mut Index, first: usize)
    requires place { first ≤ vec_len front.old + vec_len back.old }
    requires in_front { vec_len front.old + vec_len back.old ≤ vec_capacity front.old }
    requires in_back { vec_len front.old + vec_len back.old ≤ vec_capacity back.old }
    requires few { vec_len front.old + vec_len back.old < 2 ^ 32 }
    requires index { Indexes Side.Front (line_ids front.old.items) (line_ids back.old.items) index.old }
    ensures index { Indexes Side.Front (line_ids front.new.items) (line_ids back.new.items) index.new }
    ensures lines { lines_round front.new back.new ≡ lines_round front.old back.old }
    ensures place { vec_len front.new ≡ first }
    ensures total { vec_len front.new + vec_len back.new ≡ vec_len front.old + vec_len back.old }
    ensures front_room { vec_capacity front.new ≡ vec_capacity front.old }
    ensures back_room { vec_capacity back.new ≡ vec_capacity back.old }
    ensures index_len { length index.new ≡ length index.old }
{
    let stands = front.len();
    if first < stands {
        move_told(front, back, index, Side::Back, stands - first);
    } else {
        move_told(back, front, index, Side::Front, first - stands);
    }
}

/// Lends the line at a place.
fn line_at<'a>(front: &'a Vec<Line>, back: &'a Vec<Line>, place: usize) -> &'a Line
    requires { place < vec_len front.now + vec_len back.now }
    ensures { slice_get (lines_round front.now back.now) place ≡ Some result.now }
{
    if place < front.len() {
        &front[place]
    } else {
        &back[front.len() + back.len() - 1 - place]
    }
}

/// Exchanges the line at a place with another that has its id.
fn swap_line(front: &mut Vec<Line>, back: &mut Vec<Line>, place: usize, line: &mut Line)
    requires place { place < vec_len front.old + vec_len back.old }
    requires id { slice_index (line_ids (lines_round front.old back.old)) place ≡ line.old.id }
    ensures lines { lines_round front.new back.new ≡ slice_set (lines_round front.old back.old) place line.old }
    ensures line { slice_get (lines_round front.old back.old) place ≡ Some line.new }
    ensures front_ids { line_ids front.new.items ≡ line_ids front.old.items }
    ensures back_ids { line_ids back.new.items ≡ line_ids back.old.items }
    ensures front_len { vec_len front.new ≡ vec_len front.old }
    ensures back_len { vec_len back.new ≡ vec_len back.old }
    ensures front_room { vec_capacity front.new ≡ vec_capacity front.old }
    ensures back_room { vec_capacity back.new ≡ vec_capacity back.old }
{
    if place < front.len() {
        mem::swap(line, &mut front[place]);
    } else {
        let behind = front.len() + back.len() - 1 - place;
        mem::swap(line, &mut back[behind]);
    }
}

/// Exchanges lines from a place on one by one with lines that have their ids, as far as the ids are the same, and answers
/// how many they are. Where a change keeps all ids, it ends here, and neither the gap nor the index moves.
fn swap_paired(
    front: &mut Vec<Line>,
    back: &mut Vec<Line>,
    lines: &mut Vec<Line>,
    first: usize,
    stands: usize,
) -> usize
    requires { first + stands ≤ vec_len front.old + vec_len back.old }
    ensures paired { IsPairedRound front.old back.old lines.old front.new back.new lines.new first result }
    ensures most { result ≤ stands }
    ensures front_ids { line_ids front.new.items ≡ line_ids front.old.items }
    ensures back_ids { line_ids back.new.items ≡ line_ids back.old.items }
    ensures front_len { vec_len front.new ≡ vec_len front.old }
    ensures back_len { vec_len back.new ≡ vec_len back.old }
    ensures lines_len { vec_len lines.new ≡ vec_len lines.old }
    ensures front_room { vec_capacity front.new ≡ vec_capacity front.old }
    ensures back_room { vec_capacity back.new ≡ vec_capacity back.old }
    ensures lines_room { vec_capacity lines.new ≡ vec_capacity lines.old }
{
    let mut count = 0;
    while count < stands
        && count < lines.len()
        && lines[count].id == line_at(front, back, first + count).id
    {
        swap_line(front, back, first + count, &mut lines[count]);
        count += 1;
    }
    count
}

/// Puts the lines behind the first few before the gap, and so many lines from behind the gap in their place, and tells the index of them.
fn exchange_told(
    front: &mut Vec<Line>,
    back: &mut Vec<Line>,
    index: &mut Index,
    lines: &mut Vec<Line>,
    kept: usize,
    count: usize,
)
    requires kept { kept ≤ vec_len lines.old }
    requires there { count ≤ vec_len back.old }
    requires lines_room { kept + count ≤ vec_capacity lines.old }
    requires in_front { vec_len front.old + (vec_len lines.old - kept) ≤ vec_capacity front.old }
    requires in_index { rest_len front.old back.old lines.old kept count ≤ index_room index.old }
    requires index { Indexes Side.Front (line_ids front.old.items) (line_ids back.old.items) index.old }
    requires distinct { HaveOwnIds (rest_exchanged front.old back.old lines.old kept count) }
    ensures index { Indexes Side.Front (line_ids front.new.items) (line_ids back.new.items) index.new }
    ensures lines { lines_round front.new back.new ≡ rest_exchanged front.old back.old lines.old kept count }
    ensures out { lines.new.items ≡ take kept lines.old.items ++ take count (reverse back.old.items) }
    ensures total { vec_len front.new + vec_len back.new ≡ rest_len front.old back.old lines.old kept count }
    ensures front_room { vec_capacity front.new ≡ vec_capacity front.old }
    ensures back_room { vec_capacity back.new ≡ vec_capacity back.old }
    ensures index_len { length index.new ≡ length index.old }
    ensures lines_room { vec_capacity lines.new ≡ vec_capacity lines.old }
{
    let stood = front.len();
    let mut guess = 0;
    for done in 0..count {
        let place = index.forget(guess, back[back.len() - 1 - done].id);
        guess = neighbour(Side::Front, place);
    }
    change_places(front, back, lines, kept, count);
    index.add(front.as_slice(), stood, back.as_slice());
}

/// Puts the lines behind the first few before the gap, and so many lines from behind the gap in their place.
fn change_places(
    front: &mut Vec<Line>,
    back: &mut Vec<Line>,
    lines: &mut Vec<Line>,
    kept: usize,
    count: usize,
)
    requires kept { kept ≤ vec_len lines.old }
    requires there { count ≤ vec_len back.old }
    requires lines_room { kept + count ≤ vec_capacity lines.old }
    requires in_front { vec_len front.old + (vec_len lines.old - kept) ≤ vec_capacity front.old }
    ensures front { front.new.items ≡ front.old.items ++ drop kept lines.old.items }
    ensures back { reverse back.new.items ≡ drop count (reverse back.old.items) }
    ensures left { back.new.items ≡ take (vec_len back.old - count) back.old.items }
    ensures out { lines.new.items ≡ take kept lines.old.items ++ take count (reverse back.old.items) }
    ensures front_len { vec_len front.new ≡ vec_len front.old + (vec_len lines.old - kept) }
    ensures back_len { vec_len back.new + count ≡ vec_len back.old }
    ensures front_room { vec_capacity front.new ≡ vec_capacity front.old }
    ensures back_room { vec_capacity back.new ≡ vec_capacity back.old }
    ensures lines_room { vec_capacity lines.new ≡ vec_capacity lines.old }
{
    let put = lines.len() - kept;
    turn_tail(lines, kept);
    pour(lines, front, put);
    pour(back, lines, count);
}

/// Turns round the elements behind the first few.
fn turn_tail(lines: &mut Vec<Line>, kept: usize)
    requires { kept ≤ vec_len lines.old }
    ensures items { lines.new.items ≡ take kept lines.old.items ++ reverse (drop kept lines.old.items) }
    ensures len { vec_len lines.new ≡ vec_len lines.old }
    ensures capacity { vec_capacity lines.new ≡ vec_capacity lines.old }
{
    lines[kept..].reverse();
}

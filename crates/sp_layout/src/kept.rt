//! A text laid out that is kept, and parts of it that are exchanged.
ghost use Rattle.std.specs.Prelude.{◌≡◌, IfErr, IfOk, IsOk, OnErr, OnOk};
ghost use Rattle.sp_layout.specs.Changes.{CanChange, CanMoveSpeech, CanSpeak, HasChangeRoom, IsSameChange, KeepsAllRoom, SpeaksBehind, moved_speech, speech_back, with_change, with_speech};
ghost use Rattle.sp_layout.specs.Kept.{CanSwap, HasPartRoom, IsSamePart, KeepsRoom, laid_of, places_back, with_kept, with_part};

use crate::runs::{exchange_breaks, exchange_run, make_break_room, make_run_room};
use crate::{Body, Layout, Row};
use std::alloc::AllocError;
use std::marker::Model;

/// A text laid out (docs/RULES.md, "Elements" and "Pages"), of which parts can be exchanged.
#[derive(Drop)]
pub struct KeptLayout {
    pub titles: Body,
    pub body: Body,
    pub breaks: Vec<usize>,
}

impl Model for KeptLayout {
    ghost use Rattle.std.specs.Prelude.{vec_capacity};
    ghost use Rattle.sp_layout.specs.Kept.{KeptOf};

    ghost Value = { KeptOf };

    ghost view = { λ k. record { titles = k.titles; body = k.body; breaks = k.breaks.items; break_room = vec_capacity k.breaks } };
}

/// From which place to before which other a part of a layout stands: among the elements of the title page, those of the
/// body, and the page breaks. The places of lines behind it become less and more by so much when it is exchanged.
#[derive(Clone, Copy)]
pub struct PartPlaces {
    pub title_from: usize,
    pub title_to: usize,
    pub from: usize,
    pub to: usize,
    pub break_from: usize,
    pub break_to: usize,
    pub less: u64,
    pub more: u64,
}

/// A part of a layout, to be put in the place of what stands there now.
#[derive(Drop)]
pub struct LayoutPart {
    pub places: PartPlaces,
    pub kept: KeptLayout,
}

impl Model for LayoutPart {
    ghost use Rattle.sp_layout.specs.Kept.{PartOf};

    ghost Value = { PartOf };

    ghost view = { λ p. record { places = p.places; kept = p.kept } };
}

/// What could not be exchanged for want of memory.
#[derive(Drop)]
pub struct UnswappedLayout {
    pub back: LayoutPart,
}

/// The rows of a speech behind a part of a layout, and which of the body's elements it is.
#[derive(Drop)]
pub struct SpeechRows {
    pub element: usize,
    pub rows: Vec<Row>,
}

impl Model for SpeechRows {
    ghost use Rattle.sp_layout.specs.Changes.{SpeechOf};

    ghost Value = { SpeechOf };

    ghost view = { λ s. record { element = s.element; rows = s.rows.items } };
}

/// What an edit changes of a layout: a part of it, and the rows of a speech behind that part, where its `(CONT'D)` comes or goes.
#[derive(Drop)]
pub struct LayoutChange {
    pub speech: Option<SpeechRows>,
    pub part: LayoutPart,
}

impl Model for LayoutChange {
    ghost use Rattle.sp_layout.specs.Changes.{ChangeOf};

    ghost Value = { ChangeOf };

    ghost view = { λ c. record { speech = c.speech; part = c.part } };
}

/// What could not be changed for want of memory.
#[derive(Drop)]
pub struct UnchangedLayout {
    pub back: LayoutChange,
}

/// Makes room for an exchange.
fn make_part_room(
    kept: &mut KeptLayout,
    at: &PartPlaces,
    part: &mut KeptLayout,
) -> Result<(), AllocError>
    requires { CanSwap (laid_of kept.old) at.now (laid_of part.old) }
    ensures kept { laid_of kept.new ≡ laid_of kept.old }
    ensures part { laid_of part.new ≡ laid_of part.old }
    ensures ok { OnOk result (HasPartRoom kept.new at.now part.new) }
    ensures room { KeepsRoom kept.old kept.new }
    ensures part_room { KeepsRoom part.old part.new }
    ensures succeeds { HasPartRoom kept.old at.now part.old → IsOk result }
{
    make_run_room(
        &mut kept.titles,
        at.title_from,
        at.title_to,
        &mut part.titles,
    )?;
    make_run_room(&mut kept.body, at.from, at.to, &mut part.body)?;
    make_break_room(
        &mut kept.breaks,
        at.break_from,
        at.break_to,
        &mut part.breaks,
    )
}

/// Exchanges a part where there is room, and tells where those that came stand.
fn exchange_part(kept: &mut KeptLayout, at: &PartPlaces, part: &mut KeptLayout) -> PartPlaces
    requires can { CanSwap (laid_of kept.old) at.now (laid_of part.old) }
    requires room { HasPartRoom kept.old at.now part.old }
    ensures kept { laid_of kept.new ≡ with_part (laid_of kept.old) at.now (laid_of part.old) }
    ensures places { result ≡ places_back at.now (laid_of part.old) }
    ensures back { with_part (laid_of kept.new) result (laid_of part.new) ≡ laid_of kept.old }
    ensures can { CanSwap (laid_of kept.new) result (laid_of part.new) }
    ensures room { HasPartRoom kept.new result part.new }
    ensures kept_room { KeepsRoom kept.old kept.new }
    ensures part_room { KeepsRoom part.old part.new }
{
    let title_to = exchange_run(
        &mut kept.titles,
        at.title_from,
        at.title_to,
        &mut part.titles,
        at.less,
        at.more,
    );
    let to = exchange_run(
        &mut kept.body,
        at.from,
        at.to,
        &mut part.body,
        at.less,
        at.more,
    );
    let break_to = exchange_breaks(
        &mut kept.breaks,
        at.break_from,
        at.break_to,
        &mut part.breaks,
        at.from,
        at.to,
        to,
    );
    PartPlaces {
        title_from: at.title_from,
        title_to,
        from: at.from,
        to,
        break_from: at.break_from,
        break_to,
        less: at.more,
        more: at.less,
    }
}

/// A speech where it stands once a part in front of it, which ended before one element, ends before another.
fn moved_speech(speech: Option<SpeechRows>, was: usize, end: usize) -> Option<SpeechRows>
    requires behind { SpeaksBehind was speech }
    requires low { CanMoveSpeech was end speech }
    ensures { result ≡ moved_speech was end speech }
{
    match speech {
        Some(SpeechRows { element, rows }) => Some(SpeechRows {
            element: end + (element - was),
            rows,
        }),
        None => None,
    }
}

/// Exchanges the rows of a speech where it stands; what it answers leads back. It takes no memory.
pub fn exchange_speech(kept: &mut KeptLayout, speech: Option<SpeechRows>) -> Option<SpeechRows>
    requires { CanSpeak (laid_of kept.old) 0 speech }
    ensures kept { laid_of kept.new ≡ with_speech (laid_of kept.old) speech }
    ensures back { result ≡ speech_back (laid_of kept.old) speech }
    ensures room { KeepsAllRoom kept.old kept.new }
{
    match speech {
        Some(SpeechRows { element, mut rows }) => {
            kept.body.swap_rows(element, &mut rows);
            Some(SpeechRows { element, rows })
        }
        None => None,
    }
}

impl KeptLayout {
    /// A layout, to be kept.
    pub fn new(layout: Layout) -> KeptLayout
        ensures { laid_of result ≡ layout }
    {
        let Layout {
            titles,
            body,
            breaks,
        } = layout;
        KeptLayout {
            titles,
            body,
            breaks,
        }
    }

    /// Exchanges a part of the layout for what stands in its place, and moves what is behind it; no row is copied. What it
    /// answers leads back when it is exchanged in its turn. `UnswappedLayout` comes for want of memory alone, never where
    /// there is room; then the layout is as it was, and the part is handed back.
    pub fn swap(&mut self, back: LayoutPart) -> Result<LayoutPart, UnswappedLayout>
        requires { CanSwap (laid_of self.old) back.places (laid_of back.kept) }
        ensures layout { OnOk result (laid_of self.new ≡ with_kept self.old back) }
        ensures places { IfOk result (λ it. it.places ≡ places_back back.places (laid_of back.kept)) }
        ensures back { IfOk result (λ it. with_kept self.new it ≡ laid_of self.old) }
        ensures can { IfOk result (λ it. CanSwap (laid_of self.new) it.places (laid_of it.kept)) }
        ensures returns { IfOk result (λ it. HasPartRoom self.new it.places it.kept) }
        ensures room { KeepsRoom self.old self.new }
        ensures part_room { IfOk result (λ it. KeepsRoom back.kept it.kept) }
        ensures never { HasPartRoom self.old back.places back.kept → IsOk result }
        ensures same { OnErr result (laid_of self.new ≡ laid_of self.old) }
        ensures handed_back { IfErr result (λ e. IsSamePart e.back back) }
    {
        let LayoutPart { places, mut kept } = back;
        match make_part_room(self, &places, &mut kept) {
            Ok(()) => {
                let places = exchange_part(self, &places, &mut kept);
                Ok(LayoutPart { places, kept })
            }
            Err(_) => Err(UnswappedLayout {
                back: LayoutPart { places, kept },
            }),
        }
    }

    /// Exchanges a part of the layout for what stands in its place, with the rows of the speech behind it, and moves what is behind
    /// the part; no row is copied. What it answers leads back when it is made in its turn. `UnchangedLayout` comes for want of
    /// memory alone, never where there is room; then the layout is as it was, and the change is handed back.
    pub fn change(&mut self, back: LayoutChange) -> Result<LayoutChange, UnchangedLayout>
        requires { CanChange (laid_of self.old) back }
        ensures layout { OnOk result (laid_of self.new ≡ with_change (laid_of self.old) back) }
        ensures places { IfOk result (λ it. it.part.places ≡ places_back back.part.places (laid_of back.part.kept)) }
        ensures back { IfOk result (λ it. with_change (laid_of self.new) it ≡ laid_of self.old) }
        ensures can { IfOk result (CanChange (laid_of self.new)) }
        ensures returns { IfOk result (HasChangeRoom self.new) }
        ensures room { KeepsRoom self.old self.new }
        ensures part_room { IfOk result (λ it. KeepsRoom back.part.kept it.part.kept) }
        ensures never { HasChangeRoom self.old back → IsOk result }
        ensures same { OnErr result (laid_of self.new ≡ laid_of self.old) }
        ensures handed_back { IfErr result (λ e. IsSameChange e.back back) }
    {
        let LayoutChange { speech, part } = back;
        let to = part.places.to;
        match self.swap(part) {
            Ok(part) => {
                let _len = self.body.len();
                let moved = moved_speech(speech, to, part.places.to);
                let speech = exchange_speech(self, moved);
                Ok(LayoutChange { speech, part })
            }
            Err(error) => Err(UnchangedLayout {
                back: LayoutChange {
                    speech,
                    part: error.back,
                },
            }),
        }
    }
}

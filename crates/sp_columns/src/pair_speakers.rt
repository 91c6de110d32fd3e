//! Speakers who go on.
ghost use Rattle.std.specs.Prelude.{◌≡◌, false, slice_index_or};
ghost use Rattle.std.specs.List.{list_any};

/// Whether there is a speaker at the place, who goes on. The speakers are those of an element, from left to right.
pub fn goes_on(speakers: &[bool], place: usize) -> bool
    ensures { result ≡ slice_index_or speakers.now place false }
{
    place < speakers.len() && speakers[place]
}

/// Whether one of the speakers of an element goes on.
pub fn has_speaker(speakers: &[bool]) -> bool
    ensures { result ≡ list_any (λ goes_on. goes_on) speakers.now }
{
    speakers.iter().any(|goes_on| *goes_on)
}

//! Cases of packets.
use crate::bytes::written_of;
use crate::faults::Faults;
use crate::lines::first_of;
use crate::ran::{Program, kept, ran_over, shelf_of, store, written};
use sp_kit::MemoryShelf;
use std::alloc::{AllocError, Global};

/// Keeps under a name what a run writes over what the shelf has.
fn keep<P: Program>(
    program: &P,
    alloc: Global,
    text: &str,
    name: &str,
    shelf: &mut MemoryShelf,
) -> Result<(), AllocError> {
    let bytes = written(program, alloc, text, shelf)?;
    store(shelf, name, &bytes)
}

/// Does the command of a case over what the shelf has, saves, and asks for the packet. The replies have to end as the case says.
fn compare_replies<P: Program>(
    program: &P,
    alloc: Global,
    text: &str,
    shelf: &mut MemoryShelf,
    faults: &mut Faults,
) -> Result<(), AllocError> {
    let command = first_of(text, b'.');
    let session = format!(in alloc;
        "$desk f\n>{command}\n>{{\"do\":\"save\"}}\n>{{\"do\":\"packet\"}}"
    )?;
    let replies = written(program, alloc, session.as_str(), shelf)?;
    let expected = written_of(alloc, text)?;
    if !replies.ends_with(&expected) {
        faults.tell("wrote", &replies, &expected)?;
    }
    Ok(())
}

/// Collates the sheets from before with the packet. They have to become those that are printed now, which are others than before.
fn compare_collated<P: Program>(
    program: &P,
    alloc: Global,
    shelf: &mut MemoryShelf,
    faults: &mut Faults,
) -> Result<(), AllocError> {
    let now = written(program, alloc, "$print f", shelf)?;
    let collated = written(program, alloc, "$collate old new", shelf)?;
    faults.compare("collated", &collated, &now)?;
    if kept(alloc, shelf, "old")? == now {
        faults.tell("printed", &now, b"other sheets than before")?;
    }
    Ok(())
}

/// Does the command of a case over what the case leaves, saves, and asks for the packet. The replies have to end as the case says,
/// and the sheets from before, collated with the packet, have to be those that are printed then, which are others.
pub fn compare_packet<P: Program>(
    program: &P,
    alloc: Global,
    text: &str,
    faults: &mut Faults,
) -> Result<(), AllocError> {
    let mut shelf = shelf_of(alloc, text)?;
    ran_over(program, alloc, text, &mut shelf)?;
    keep(program, alloc, "$print f", "old", &mut shelf)?;
    compare_replies(program, alloc, text, &mut shelf, faults)?;
    keep(program, alloc, "$packet f", "new", &mut shelf)?;
    compare_collated(program, alloc, &mut shelf, faults)
}

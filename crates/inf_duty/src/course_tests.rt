//! What a call looks up, and what it does where its path stops.

ghost use Rattle.std.specs.Prelude.{◌≡◌};

use crate::course::{Course, Deed};
use crate::flow::Flow;
use inf_base::{Call, Chain, Name, Names, NoMemory, Sequence, Text};
use inf_flow_file::FileFlow;
use inf_message::Op;
use inf_resolve::Walked;
use std::alloc::Global;
use std::test::Fail;

/// Whether these are the names of one letter each.
fn are_letters(names: &Names, letters: &[u8]) -> bool {
    names.len() == letters.len()
        && names
            .iter()
            .zip(letters)
            .all(|(name, letter)| name.as_slice() == [*letter].as_slice())
}

/// Whether the names a and b are looked up, and the file f is asked for there.
fn is_stat(course: &Course) -> bool {
    are_letters(&course.looked.old, b"ab")
        && are_letters(&course.looked.new, b"")
        && matches!(&course.deed, Deed::Stat(name) if name.as_slice() == b"f".as_slice())
}

#[test]
fn the_directories_are_looked_up(rt: HostRuntime) -> Result<(), Fail> {
    let alloc = rt.alloc();
    let path = Text::from_slice(alloc, b"//a/b/f")?;
    let course = Course::of(alloc, &Call::Stat { path })?;
    assert!(rt; matches!(&course, Some(course) if is_stat(course)));
    Ok(())
}

/// A path that stopped at this name.
fn stopped(alloc: Global, name: &[u8; 1]) -> Result<Walked, NoMemory> {
    let mut left = Vec::new(alloc);
    left.push(Name::from_slice(alloc, name)?)?;
    Ok(Walked {
        chain: Chain::new(alloc, Sequence::new(Vec::new(alloc)))?,
        left: Names::new(left),
    })
}

#[test]
fn a_path_that_stops_is_walked(rt: HostRuntime) -> Result<(), Fail> {
    let alloc = rt.alloc();
    let deed = Deed::Stat(Name::from_slice(alloc, b"f")?);
    let flow = deed.begin(stopped(alloc, b"b")?);
    assert!(rt;
        matches!(&flow, Flow::File(FileFlow::Finishes(_, Op::Walk(name))) if name.as_slice() == b"b".as_slice())
    );
    Ok(())
}

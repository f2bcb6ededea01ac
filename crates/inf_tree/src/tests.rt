//! Creates and stats, with the answers that the rules give them.

ghost use Rattle.inf_tree.specs.Flat.{IsOfOneName};

use crate::tree::Tree;
use inf_base::{Answer, Call, Caller, Errno, FileMeta, Kind, NoMemory, Text};
use std::alloc::Global;
use std::test::Fail;

fn create(
    alloc: Global,
    tree: &mut Tree,
    gid: u32,
    path: &[u8],
    mode: u16,
) -> Result<Answer, NoMemory>
    requires { IsOfOneName path.now }
{
    let call = Call::Create {
        path: Text::from_slice(alloc, path)?,
        mode,
    };
    tree.apply(alloc, Caller { uid: 0, gid }, &call)
}

fn stat(alloc: Global, tree: &mut Tree, path: &[u8]) -> Result<Answer, NoMemory>
    requires { IsOfOneName path.now }
{
    let call = Call::Stat {
        path: Text::from_slice(alloc, path)?,
    };
    tree.apply(alloc, Caller { uid: 0, gid: 0 }, &call)
}

fn told(mode: u16, group: u32) -> Answer {
    Answer::Stat {
        kind: Kind::File,
        meta: FileMeta {
            mode,
            owner: 0,
            group,
            length: 0,
        },
    }
}

#[test]
fn creates_and_stats(rt: HostRuntime) -> Result<(), Fail> {
    let alloc = rt.alloc();
    let mut tree = Tree::new(alloc)?;
    assert_eq!(rt;
        stat(alloc, &mut tree, b"/b")?,
        Answer::Refused(Errno::ENOENT)
    );
    assert_eq!(rt; create(alloc, &mut tree, 0, b"/b", 0o644)?, Answer::Done);
    assert_eq!(rt; create(alloc, &mut tree, 7, b"/a.", 0o000)?, Answer::Done);
    assert_eq!(rt;
        create(alloc, &mut tree, 7, b"/b", 0o777)?,
        Answer::Refused(Errno::EEXIST)
    );
    assert_eq!(rt; stat(alloc, &mut tree, b"/b")?, told(0o644, 0));
    assert_eq!(rt; stat(alloc, &mut tree, b"/a.")?, told(0o000, 7));
    assert_eq!(rt;
        stat(alloc, &mut tree, b"/a")?,
        Answer::Refused(Errno::ENOENT)
    );
    Ok(())
}

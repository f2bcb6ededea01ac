//! The check of a mode.

ghost use Rattle.std.specs.Prelude.{◌≡◌};
ghost use Rattle.inf_perm.specs.Classes.{class_bits, grants, may};

use crate::want::Want;
use inf_base::Caller;

/// Whether a mode, with the user and the group that it is of, lets the caller do what is wanted.
pub fn may(mode: u16, owner: u32, group: u32, caller: Caller, want: Want) -> bool
    ensures { result ≡ may mode owner group caller want }
{
    caller.uid == 0 || grants(class_bits(mode, owner, group, caller), want)
}

fn class_bits(mode: u16, owner: u32, group: u32, caller: Caller) -> u16
    ensures { result ≡ class_bits mode owner group caller }
{
    if caller.uid == owner {
        mode / 0o100 % 0o10
    } else if caller.gid == group {
        mode / 0o10 % 0o10
    } else {
        mode % 0o10
    }
}

fn grants(bits: u16, want: Want) -> bool
    ensures { result ≡ grants bits want }
{
    match want {
        Want::Read => bits / 4 % 2 == 1,
        Want::Write => bits / 2 % 2 == 1,
        Want::Search => bits % 2 == 1,
    }
}

#[cfg(test)]
mod tests {
    use super::*;
    use std::test::Fail;

    #[test]
    fn one_class_counts(rt: HostRuntime) -> Result<(), Fail> {
        // mode, uid, gid, want, answer; the object is of user 7 and group 70
        let rows = [
            (0o077, 7, 70, Want::Read, false),
            (0o707, 8, 70, Want::Write, false),
            (0o770, 8, 80, Want::Search, false),
            (0o400, 7, 80, Want::Read, true),
            (0o020, 8, 70, Want::Write, true),
            (0o001, 8, 80, Want::Search, true),
            (0o653, 7, 70, Want::Write, true),
            (0o653, 8, 70, Want::Write, false),
            (0o653, 8, 80, Want::Read, false),
            (0o000, 0, 80, Want::Write, true),
        ];
        for (mode, uid, gid, want, answer) in rows {
            assert_eq!(rt; may(mode, 7, 70, Caller { uid, gid }, want), answer);
        }
        Ok(())
    }
}

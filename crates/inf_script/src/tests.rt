//! Texts and what they say. The expected values follow from the rules of the form.

use super::*;
use inf_base::{Call, Caller, Calls, ClientLine, Clients, Name, NoMemory, Sequence, Setup, Text};
use inf_order::{Move, Moves};
use std::alloc::{AllocError, Global};
use std::test::Fail;

/// A path of as many names as there may be.
const LONGEST: &str = "/1/2/3/4/5/6/7/8/9/0/1/2/3/4/5/6/7/8/9/0/1/2/3/4/5/6/7/8/9/0/1/2";

/// A call in few words: its path, and its mode.
#[derive(Clone, Copy)]
enum Said<'a> {
    Create(&'a str, u16),
    Stat(&'a str),
    Mkdir(&'a str, u16),
    Rmdir(&'a str),
}

fn text(alloc: Global, path: &str) -> Result<Text, NoMemory> {
    Text::from_slice(alloc, path.as_bytes())
}

fn call(alloc: Global, said: Said) -> Result<Call, NoMemory> {
    Ok(match said {
        Said::Create(path, mode) => Call::Create {
            path: text(alloc, path)?,
            mode,
        },
        Said::Stat(path) => Call::Stat {
            path: text(alloc, path)?,
        },
        Said::Mkdir(path, mode) => Call::Mkdir {
            path: text(alloc, path)?,
            mode,
        },
        Said::Rmdir(path) => Call::Rmdir {
            path: text(alloc, path)?,
        },
    })
}

/// User 0's client.
fn client(alloc: Global, name: Name, said: &[Said]) -> Result<ClientLine, NoMemory> {
    let mut calls = Vec::new(alloc);
    for one in said.iter() {
        calls.push(call(alloc, *one)?)?;
    }
    Ok(ClientLine {
        name,
        caller: Caller { uid: 0, gid: 0 },
        calls: Calls::new(alloc, Sequence::new(calls))?,
    })
}

fn client_b(alloc: Global) -> Result<ClientLine, NoMemory> {
    let name = Name::from_slice(alloc, b"b")?;
    let calls: &[Said] = &[
        Said::Mkdir("/d", 0o755),
        Said::Mkdir("//e//", 0o777),
        Said::Rmdir("/d"),
        Said::Rmdir("/e/"),
    ];
    client(alloc, name, calls)
}

fn client_a1(alloc: Global) -> Result<ClientLine, NoMemory> {
    let name = Name::from_slice(alloc, b"a1")?;
    let calls: &[Said] = &[
        Said::Create("/f", 0o644),
        Said::Create("/d/f", 0o600),
        Said::Create("//a//b/", 0),
        Said::Create(LONGEST, 0o640),
        Said::Stat("/..g"),
        Said::Stat("/d/f"),
        Said::Stat("/d//f//"),
    ];
    client(alloc, name, calls)
}

fn expected_clients(alloc: Global) -> Result<Clients, NoMemory> {
    let mut clients = Vec::new(alloc);
    clients.push(client_b(alloc)?)?;
    clients.push(client_a1(alloc)?)?;
    Ok(Clients::new(clients))
}

/// Whether the text is a script with these values.
fn reads(
    alloc: Global,
    text: &str,
    servers: u32,
    digest_bytes: u8,
    clients: Clients,
    moves: &[Move],
) -> Result<bool, NoMemory> {
    let order = Moves::new(Vec::from_slice(alloc, moves)?);
    let setup = Setup {
        servers,
        digest_bytes,
        cache: 256,
        clients,
    };
    Ok(read_script(alloc, text.as_bytes(), false) == Ok(Script { setup, order }))
}

#[test]
fn a_script_is_read(rt: HostRuntime) -> Result<(), Fail> {
    let text =
        "# all kinds of lines\r\ninfinifs 1\nservers 3\n\ndigest-bytes 20\nclient b 0 0\nclient  a1\t0 0 \n\
         call a1 create /f 644\ncall b mkdir /d 755\ncall a1 create /d/f 600\ncall a1 create //a//b/ 000\n\
         call a1 create /1/2/3/4/5/6/7/8/9/0/1/2/3/4/5/6/7/8/9/0/1/2/3/4/5/6/7/8/9/0/1/2 640\n\
         call b mkdir //e// 777\ncall a1 stat /..g\ncall a1 stat /d/f\ncall b rmdir /d\n\
         call a1 stat /d//f//\ncall b rmdir /e/\norder +a1 =b s2\norder c:a1 *\nend";
    let moves: &[Move] = &[
        Move::Step(1),
        Move::Alone(0),
        Move::Serve {
            number: 2,
            client: None,
        },
        Move::Serve {
            number: 3,
            client: Some(1),
        },
        Move::Rest,
    ];
    let clients = expected_clients(rt.alloc())?;
    assert!(rt; reads(rt.alloc(), text, 3, 20, clients, moves)?);
    Ok(())
}

#[test]
fn settings_are_read(rt: HostRuntime) -> Result<(), Fail> {
    for (text, servers, digest_bytes) in [
        ("infinifs 1\nend\n", 1, 32),
        ("infinifs 1\ndigest-bytes 1\nend\n", 1, 1),
        ("infinifs 1\ndigest-bytes 32\nservers 64\nend\n", 64, 32),
        ("infinifs 1\nservers 2\n#\ndigest-bytes 8\nend\n", 2, 8),
    ] {
        let nobody = Clients::new(Vec::new(rt.alloc()));
        assert!(rt;
            reads(
                rt.alloc(),
                text,
                servers,
                digest_bytes,
                nobody,
                &[Move::Rest]
            )?,
            "at {text:?}"
        );
    }
    Ok(())
}

fn refusal_of(alloc: Global, text: &str) -> Option<ScriptRefusal> {
    match read_script(alloc, text.as_bytes(), false) {
        Err(ScriptFault::Refused(refusal)) => Some(refusal),
        _ => None,
    }
}

/// The first of the texts that is not refused at this line for this reason.
fn first_read<'a>(alloc: Global, rows: &[(&'a str, u64, Why)]) -> Option<&'a str> {
    for &(text, line, why) in rows.iter() {
        if refusal_of(alloc, text) != Some(ScriptRefusal { line, why }) {
            return Some(text);
        }
    }
    None
}

#[test]
fn other_texts_are_refused(rt: HostRuntime) {
    let rows: &[(&str, u64, Why)] = &[
        ("", 1, Why::BadWord),
        ("# only\n\n", 3, Why::BadWord),
        ("infinifs 1\n", 2, Why::BadWord),
        ("infinifs 1\nend\nend\n", 3, Why::BadWord),
        ("infinifs 1\nservers 65\nend\n", 2, Why::BadNumber),
        ("infinifs 1\nservers 2\nservers x\nend\n", 3, Why::BadWord),
        ("infinifs 1\ndigest-bytes 0\nend\n", 2, Why::BadNumber),
        ("infinifs 1\ndigest-bytes 33\nend\n", 2, Why::BadNumber),
        ("infinifs 1\ndigest-bytes 01\nend\n", 2, Why::BadNumber),
        ("infinifs 1\ndigest-bytes\nend\n", 2, Why::BadWord),
        ("infinifs 1\ndigest-bytes 8 8\nend\n", 2, Why::BadWord),
        (
            "infinifs 1\ndigest-bytes 8\ndigest-bytes 0\nend\n",
            3,
            Why::BadWord,
        ),
        (
            "infinifs 1\nclient a 0 0\ndigest-bytes 8\nend\n",
            3,
            Why::BadWord,
        ),
        (
            "infinifs 1\n#\nclient a 0 0\nclient a x\n",
            4,
            Why::DoubleClient,
        ),
        ("infinifs 1\nclient a 1 0\nend\n", 2, Why::BadNumber),
        (
            "infinifs 1\nclient a 0 0\ncall b stat /f\n",
            3,
            Why::UnknownClient,
        ),
        (
            "infinifs 1\nclient a 0 0\norder +a +b s9\n",
            3,
            Why::UnknownClient,
        ),
        (
            "infinifs 1\nclient a 0 0\norder s1\nend\n",
            3,
            Why::BadNumber,
        ),
    ];
    assert_eq!(rt; first_read(rt.alloc(), rows), None);
}

fn repeated(alloc: Global, line: &str, count: usize) -> Result<String, AllocError> {
    let mut text = String::from_str(alloc, "infinifs 1\nclient a 0 0\n")?;
    for _ in 0..count {
        text.push_str(line)?;
    }
    Ok(text)
}

fn refusal_of_lines(
    alloc: Global,
    line: &str,
    count: usize,
) -> Result<Option<ScriptRefusal>, NoMemory> {
    Ok(refusal_of(alloc, &repeated(alloc, line, count)?))
}

/// The first of the lines that is not refused for this reason.
fn first_accepted<'a>(alloc: Global, rows: &[(&'a str, Why)]) -> Result<Option<&'a str>, NoMemory> {
    for &(line, why) in rows.iter() {
        if refusal_of_lines(alloc, line, 1)? != Some(ScriptRefusal { line: 3, why }) {
            return Ok(Some(line));
        }
    }
    Ok(None)
}

#[test]
fn call_lines_are_refused(rt: HostRuntime) -> Result<(), Fail> {
    let rows: &[(&str, Why)] = &[
        ("call a mkdir", Why::BadWord),
        ("call a mkdir /d", Why::BadWord),
        ("call a mkdir /d 800", Why::BadNumber),
        ("call a mkdir /d 75", Why::BadNumber),
        ("call a mkdir /d 0755", Why::BadNumber),
        ("call a mkdir /d 755 x", Why::BadWord),
        ("call a mkdir /d 800 x", Why::BadNumber),
        ("call a mkdir / 755", Why::BadWord),
        ("call a mkdir / 800", Why::BadWord),
        ("call a mkdir /d/e 800", Why::BadNumber),
        ("call a mkdir d 755", Why::BadWord),
        ("call b mkdir", Why::UnknownClient),
        ("call a rmdir", Why::BadWord),
        ("call a rmdir /", Why::BadWord),
        ("call a rmdir /d 755", Why::BadWord),
        ("call a create / 644", Why::BadWord),
        ("call a create /f 644 644", Why::BadWord),
        ("call a stat /", Why::BadWord),
        ("call a stat ///", Why::BadWord),
        ("call a stat /d/..", Why::BadWord),
        ("call a stat /./f", Why::BadWord),
        ("call a unlink /f", Why::BadWord),
        ("call a list /d", Why::BadWord),
        ("call a truncate /f 0", Why::BadWord),
        ("call a chmod /f 644", Why::BadWord),
        ("call a rename /f /g", Why::BadWord),
    ];
    assert_eq!(rt; first_accepted(rt.alloc(), rows)?, None);
    Ok(())
}

/// The most of these lines are read, so that the next one is missing; and one more is too many.
fn reads_at_most(alloc: Global, line: &str, most: u32) -> Result<bool, NoMemory> {
    let at = u64::from(most) + 3;
    let most = most as usize;
    let missing = Some(ScriptRefusal {
        line: at,
        why: Why::BadWord,
    });
    let too_many = Some(ScriptRefusal {
        line: at,
        why: Why::TooMany,
    });
    Ok(
        refusal_of_lines(alloc, line, most)? == missing
            && refusal_of_lines(alloc, line, most + 1)? == too_many,
    )
}

#[test]
fn the_most_are_read(rt: HostRuntime) -> Result<(), Fail> {
    let calls = "call a create /f 644\n";
    assert!(rt; reads_at_most(rt.alloc(), calls, 20_000)?);
    let moves = "order +a =a s0 s0:a c c:a * +a +a +a\n";
    assert!(rt; reads_at_most(rt.alloc(), moves, 100_000)?);
    Ok(())
}

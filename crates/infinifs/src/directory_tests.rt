use crate::trial::{expect_calls, expect_end, expect_report, run};
use std::alloc::Global;
use std::test::Fail;

const KEPT: &[u8] = b"infinifs 1\n\
      client a 0 0\n\
      call a mkdir /a 755\n\
      call a create /a/f 644\n\
      call a rmdir /a\n\
      end\n";

const KEPT_REPORT: &[u8] = b"infinifs report 1\n\
      servers 1\n\
      digest-bytes 32\n\
      cache 256\n\
      client a 0 0\n\
      calls 3\n\
      8 a.1 mkdir /a 755 = done first 1 last 8 attempts 1 rounds 1 messages 4\n\
      14 a.2 create /a/f 644 = done first 9 last 14 attempts 1 rounds 1 messages 3\n\
      20 a.3 rmdir /a = refused ENOTEMPTY first 15 last 20 attempts 1 rounds 1 messages 3\n\
      events 20\n\
      1 ask a.1 s0 lookup top\n\
      2 serve s0 1 found top @#0 755 0 0 root\n\
      3 ask a.1 s0 reserve 2 a\n\
      4 serve s0 3 reserved 0\n\
      5 ask a.1 s0 make @/a/0\n\
      6 serve s0 5 fine\n\
      7 ask a.1 s0 link 2 a %#5 755\n\
      8 serve s0 7 fine\n\
      9 ask a.2 s0 lookup top\n\
      10 ask a.2 s0 lookup @ a\n\
      11 serve s0 9 found top @#0 755 0 0 root\n\
      12 serve s0 10 found @#0/a %#5 755 0 0 @/a/0\n\
      13 ask a.2 s0 finish 11,12 create f 644\n\
      14 serve s0 13 fine\n\
      15 ask a.3 s0 lookup top\n\
      16 ask a.3 s0 lookup @ a\n\
      17 serve s0 15 found top @#0 755 0 0 root\n\
      18 serve s0 16 found @#0/a %#5 755 0 0 @/a/0\n\
      19 ask a.3 s0 seal 17,18\n\
      20 serve s0 19 refused ENOTEMPTY\n\
      end\n";

#[test]
fn a_directory_is_kept_while_it_has_a_file(rt: HostRuntime) -> Result<(), Fail> {
    expect_report(&rt, rt.alloc(), KEPT, KEPT_REPORT)
}

/// Of two servers, the first keeps the root, and the second its directory `a`.
const TWO_SERVERS: &[u8] = b"infinifs 1\n\
      servers 2\n\
      client a 0 0\n\
      client b 0 0\n\
      call a mkdir /a 755\n\
      call a rmdir /a\n\
      call b create /a/f 644\n\
      order =a +a +a s0 s0 +a s1 =b =a\n\
      end\n";

/// The directory is sealed when the file is to be made in it.
const SEALED_REPORT: &[u8] = b"infinifs report 1\n\
      servers 2\n\
      digest-bytes 32\n\
      cache 256\n\
      client a 0 0\n\
      client b 0 0\n\
      calls 3\n\
      8 a.1 mkdir /a 755 = done first 1 last 8 attempts 1 rounds 1 messages 4\n\
      20 b.1 create /a/f 644 = again a.2 first 15 last 20 attempts 1 rounds 1 messages 3\n\
      22 a.2 rmdir /a = done first 9 last 24 attempts 1 rounds 1 messages 5\n\
      events 24\n\
      1 ask a.1 s0 lookup top\n\
      2 serve s0 1 found top @#0 755 0 0 root\n\
      3 ask a.1 s0 reserve 2 a\n\
      4 serve s0 3 reserved 0\n\
      5 ask a.1 s1 make @/a/0\n\
      6 serve s1 5 fine\n\
      7 ask a.1 s0 link 2 a %#5 755\n\
      8 serve s0 7 fine\n\
      9 ask a.2 s0 lookup top\n\
      10 ask a.2 s0 lookup @ a\n\
      11 serve s0 9 found top @#0 755 0 0 root\n\
      12 serve s0 10 found @#0/a %#5 755 0 0 @/a/0\n\
      13 ask a.2 s1 seal 11,12\n\
      14 serve s1 13 fine\n\
      15 ask b.1 s0 lookup top\n\
      16 ask b.1 s0 lookup @ a\n\
      17 serve s0 15 found top @#0 755 0 0 root\n\
      18 serve s0 16 found @#0/a %#5 755 0 0 @/a/0\n\
      19 ask b.1 s1 finish 17,18 create f 644\n\
      20 serve s1 19 busy a.2 sealed 5\n\
      21 ask a.2 s0 unlink 11,12\n\
      22 serve s0 21 fine\n\
      23 ask a.2 s1 drop %#5\n\
      24 serve s1 23 fine\n\
      end\n";

#[test]
fn a_creation_crosses_a_removal(rt: HostRuntime) -> Result<(), Fail> {
    expect_report(&rt, rt.alloc(), TWO_SERVERS, SEALED_REPORT)
}

/// The name is free again, and the directory of that name is still there: the one to be made would bear its identifier.
const BORNE: &[u8] = b"infinifs 1\n\
      servers 2\n\
      client a 0 0\n\
      client b 0 0\n\
      call a mkdir /a 755\n\
      call a rmdir /a\n\
      call b mkdir /a 700\n\
      order =a +a +a s0 s0 +a s1 +a s0 =b =a\n\
      end\n";

const BORNE_END: &[u8] = b"15 ask a.2 s0 unlink 11,12\n\
      16 serve s0 15 fine\n\
      17 ask b.1 s0 lookup top\n\
      18 serve s0 17 found top @#0 755 0 0 root\n\
      19 ask b.1 s0 reserve 18 a\n\
      20 serve s0 19 reserved 0\n\
      21 ask b.1 s1 make @/a/0\n\
      22 serve s1 21 busy a.2 bearer 0\n\
      23 ask b.1 s0 cancel @#0\n\
      24 serve s0 23 fine\n\
      25 ask a.2 s1 drop %#5\n\
      26 serve s1 25 fine\n\
      end\n";

/// What is told of a name that is reserved, of one that there is not, and of a file.
const TOLD: &[u8] = b"infinifs 1\n\
      servers 2\n\
      client a 0 0\n\
      client b 0 0\n\
      call a mkdir /a 755\n\
      call b create /f 644\n\
      call b stat /a/f\n\
      call b stat /g/f\n\
      call b rmdir /f\n\
      order +a s0 +a s0 =b =b =b =b\n\
      end\n";

const TOLD_END: &[u8] = b"9 ask b.2 s0 lookup top\n\
      10 ask b.2 s0 lookup @ a\n\
      11 serve s0 9 found top @#0 755 0 0 root\n\
      12 serve s0 10 busy a.1 slot 0\n\
      13 ask b.3 s0 lookup top\n\
      14 ask b.3 s0 lookup @ g\n\
      15 serve s0 13 found top @#0 755 0 0 root\n\
      16 serve s0 14 absent 0\n\
      17 ask b.3 s0 finish 15 walk g\n\
      18 serve s0 17 refused ENOENT\n\
      19 ask b.4 s0 lookup top\n\
      20 ask b.4 s0 lookup @ f\n\
      21 serve s0 19 found top @#0 755 0 0 root\n\
      22 serve s0 20 file 0\n\
      23 ask b.4 s0 finish 21 rmdir-name f\n\
      24 serve s0 23 refused ENOTDIR\n\
      end\n";

#[test]
fn each_message_goes_to_its_server(rt: HostRuntime) -> Result<(), Fail> {
    expect_end(&rt, rt.alloc(), BORNE, BORNE_END)?;
    expect_end(&rt, rt.alloc(), TOLD, TOLD_END)
}

const ALONE: &[u8] = b"call a create /f 644\n\
      call a create /f/g 644\n\
      call a rmdir /f\n\
      call a stat /g/f\n\
      call a rmdir /g\n\
      call a mkdir /f 755\n\
      call a mkdir /a 700\n\
      call a mkdir /a 755\n\
      call a create /a 644\n\
      call a stat /a\n\
      call a create /a/f 600\n\
      call a stat /a/f\n\
      call a create /a/f 644\n\
      call a stat /a/g\n\
      call a rmdir /a\n\
      call a mkdir /b 750\n\
      call a rmdir /b\n\
      call a stat /b\n\
      call a rmdir /b\n\
      call a mkdir /b 711\n\
      call a stat /b\n";

const ALONE_LINES: &[u8] = b"calls 21\n\
      4 a.1 create /f 644 = done first 1 last 4 attempts 1 rounds 1 messages 2\n\
      10 a.2 create /f/g 644 = refused ENOTDIR first 5 last 10 attempts 1 rounds 1 messages 3\n\
      16 a.3 rmdir /f = refused ENOTDIR first 11 last 16 attempts 1 rounds 1 messages 3\n\
      22 a.4 stat /g/f = refused ENOENT first 17 last 22 attempts 1 rounds 1 messages 3\n\
      28 a.5 rmdir /g = refused ENOENT first 23 last 28 attempts 1 rounds 1 messages 3\n\
      32 a.6 mkdir /f 755 = refused EEXIST first 29 last 32 attempts 1 rounds 1 messages 2\n\
      40 a.7 mkdir /a 700 = done first 33 last 40 attempts 1 rounds 1 messages 4\n\
      44 a.8 mkdir /a 755 = refused EEXIST first 41 last 44 attempts 1 rounds 1 messages 2\n\
      48 a.9 create /a 644 = refused EEXIST first 45 last 48 attempts 1 rounds 1 messages 2\n\
      52 a.10 stat /a = stat dir 700 0 0 0 first 49 last 52 attempts 1 rounds 1 messages 2\n\
      58 a.11 create /a/f 600 = done first 53 last 58 attempts 1 rounds 1 messages 3\n\
      64 a.12 stat /a/f = stat file 600 0 0 0 first 59 last 64 attempts 1 rounds 1 messages 3\n\
      70 a.13 create /a/f 644 = refused EEXIST first 65 last 70 attempts 1 rounds 1 messages 3\n\
      76 a.14 stat /a/g = refused ENOENT first 71 last 76 attempts 1 rounds 1 messages 3\n\
      82 a.15 rmdir /a = refused ENOTEMPTY first 77 last 82 attempts 1 rounds 1 messages 3\n\
      90 a.16 mkdir /b 750 = done first 83 last 90 attempts 1 rounds 1 messages 4\n\
      98 a.17 rmdir /b = done first 91 last 100 attempts 1 rounds 1 messages 5\n\
      104 a.18 stat /b = refused ENOENT first 101 last 104 attempts 1 rounds 1 messages 2\n\
      110 a.19 rmdir /b = refused ENOENT first 105 last 110 attempts 1 rounds 1 messages 3\n\
      118 a.20 mkdir /b 711 = done first 111 last 118 attempts 1 rounds 1 messages 4\n\
      122 a.21 stat /b = stat dir 711 0 0 0 first 119 last 122 attempts 1 rounds 1 messages 2\n";

#[test]
fn a_client_alone_is_answered_by_its_own_tree(rt: HostRuntime) -> Result<(), Fail> {
    expect_calls(&rt, rt.alloc(), ALONE, b"*", ALONE_LINES)
}

/// Two directories of one name are made, one while the other is removed.
const BOTH: &[u8] = b"call a mkdir /a 755\n\
      call a rmdir /a\n\
      call b mkdir /a 700\n";

/// What is left when an order ends: calls without a place are not decided, those that are open have not ended.
#[test]
fn an_order_ends_where_it_likes(rt: HostRuntime) -> Result<(), Fail> {
    let ends: [(&[u8], &[u8]); 7] = [
        (
            b"+a",
            b"calls 3\n\
              - a.1 mkdir /a 755 = unanswered first 1 last - attempts 1 rounds 1 messages 1\n\
              - a.2 rmdir /a = unanswered first - last - attempts 0 rounds 0 messages 0\n\
              - b.1 mkdir /a 700 = unanswered first - last - attempts 0 rounds 0 messages 0\n",
        ),
        (
            b"+a s0 +a s0 +a",
            b"calls 3\n\
              - a.1 mkdir /a 755 = unanswered first 1 last - attempts 1 rounds 1 messages 3\n\
              - a.2 rmdir /a = unanswered first - last - attempts 0 rounds 0 messages 0\n\
              - b.1 mkdir /a 700 = unanswered first - last - attempts 0 rounds 0 messages 0\n",
        ),
        (
            b"+a s0 +a s0 +a s0 +a +b",
            b"calls 3\n\
              - a.1 mkdir /a 755 = unanswered first 1 last - attempts 1 rounds 1 messages 4\n\
              - a.2 rmdir /a = unanswered first - last - attempts 0 rounds 0 messages 0\n\
              - b.1 mkdir /a 700 = unanswered first 8 last - attempts 1 rounds 1 messages 1\n",
        ),
        (
            b"=a +a +a s0 s0 +a s0 +a",
            b"calls 3\n\
              8 a.1 mkdir /a 755 = done first 1 last 8 attempts 1 rounds 1 messages 4\n\
              - a.2 rmdir /a = unanswered first 9 last - attempts 1 rounds 1 messages 4\n\
              - b.1 mkdir /a 700 = unanswered first - last - attempts 0 rounds 0 messages 0\n",
        ),
        (
            b"=a +a +a s0 s0 +a s0 +a s0",
            b"calls 3\n\
              8 a.1 mkdir /a 755 = done first 1 last 8 attempts 1 rounds 1 messages 4\n\
              16 a.2 rmdir /a = done first 9 last - attempts 1 rounds 1 messages 4 open\n\
              - b.1 mkdir /a 700 = unanswered first - last - attempts 0 rounds 0 messages 0\n",
        ),
        (
            b"=a +a +a s0 s0 +a s0 +a s0 +a",
            b"calls 3\n\
              8 a.1 mkdir /a 755 = done first 1 last 8 attempts 1 rounds 1 messages 4\n\
              16 a.2 rmdir /a = done first 9 last - attempts 1 rounds 1 messages 5 open\n\
              - b.1 mkdir /a 700 = unanswered first - last - attempts 0 rounds 0 messages 0\n",
        ),
        (
            b"=a +a +a s0 s0 +a s0 +a s0 +b s0 +b s0 +b s0",
            b"calls 3\n\
              8 a.1 mkdir /a 755 = done first 1 last 8 attempts 1 rounds 1 messages 4\n\
              16 a.2 rmdir /a = done first 9 last - attempts 1 rounds 1 messages 4 open\n\
              22 b.1 mkdir /a 700 = again a.2 first 17 last - attempts 1 rounds 1 messages 3 open\n",
        ),
    ];
    for (order, lines) in ends {
        expect_calls(&rt, rt.alloc(), BOTH, order, lines)?;
    }
    Ok(())
}

/// Eight bytes are kept of each digest, and an identifier is a digest of the one above it.
const SHORT: &[u8] = b"infinifs 1\n\
      servers 2\n\
      digest-bytes 8\n\
      client a 0 0\n\
      call a mkdir /a 755\n\
      end\n";

const SHORT_REPORT: &[u8] = b"infinifs report 1\n\
      servers 2\n\
      digest-bytes 8\n\
      cache 256\n\
      client a 0 0\n\
      calls 1\n\
      8 a.1 mkdir /a 755 = done first 1 last 8 attempts 1 rounds 1 messages 4\n\
      events 8\n\
      1 ask a.1 s0 lookup top\n\
      2 serve s0 1 found top e3b0c44298fc1c14000000000000000000000000000000000000000000000000#0 755 0 0 root\n\
      3 ask a.1 s0 reserve 2 a\n\
      4 serve s0 3 reserved 0\n\
      5 ask a.1 s1 make e3b0c44298fc1c14000000000000000000000000000000000000000000000000/a/0\n\
      6 serve s1 5 fine\n\
      7 ask a.1 s0 link 2 a 07636966182fed31000000000000000000000000000000000000000000000000#5 755\n\
      8 serve s0 7 fine\n\
      end\n";

#[test]
fn identifiers_are_as_long_as_the_script_says(rt: HostRuntime) -> Result<(), Fail> {
    expect_report(&rt, rt.alloc(), SHORT, SHORT_REPORT)
}

//! The report of the empty script, and single lines: each clause is computed.

ghost use Rattle.std.specs.Prelude.{◌≡◌, [], codes};
ghost use Rattle.inf_report.specs.Examples.{ask_root, client_a, empty_report, ended_result, open_result, other_result, serve_fine, setup_a, setup_of};
ghost use Rattle.inf_report.specs.Numbers.{numbers_text, set_positions};
ghost use Rattle.inf_report.specs.Report.{call_line, client_line, event_line, line, report};

/// A script with no client has seven lines.
pub fn example_of_the_empty_report()
    ensures { report (setup_of []) [] [] ≡ empty_report }
{}

/// A line of each kind.
pub fn example_of_lines()
    ensures client { client_line client_a ≡ line (codes "client a 7 8") }
    ensures ask { event_line setup_a 1 ask_root ≡ line (codes "1 ask a.1 s0 lookup top") }
    ensures serve { event_line setup_a 2 serve_fine ≡ line (codes "2 serve c 1 fine") }
{}

/// Calls that are open, ended, and not decided.
pub fn example_of_calls()
    ensures open { call_line setup_a.clients open_result
        ≡ line (codes "2 a.1 stat /f = done first 1 last - attempts 1 rounds 2 messages 3 open") }
    ensures ended { call_line setup_a.clients ended_result
        ≡ line (codes "2 a.1 stat /f = done first 1 last 4 attempts 1 rounds 2 messages 3") }
    ensures other { call_line setup_a.clients other_result
        ≡ line (codes "- a.1 stat /f = unanswered first - last - attempts 0 rounds 0 messages 0") }
{}

/// The positions of set bits.
pub fn example_of_positions()
    ensures { numbers_text (set_positions 1033) ≡ codes "0,3,10" }
{}

//! The words of an order line, each a move.

ghost use Rattle.std.specs.Prelude.{◌≡◌, ◌<◌, length, Ok, Some};
ghost use Rattle.std.specs.Option.{option_copied};
ghost use Rattle.inf_base.specs.Memory.{Gives};
ghost use Rattle.inf_script.specs.Faults.{line_cause};
ghost use Rattle.inf_script.specs.OrderLine.{step_move, alone_move, serve_move, coordinator_move, rest_move, serve_client, server_text, move_of, moves_from, order_moves, order_line};

use crate::bytes::{cut_at, position_of};
use crate::client_table::ClientTable;
use crate::draft::Draft;
use crate::fault::{BAD_WORD, LineFault, TOO_MANY, UNKNOWN_CLIENT};
use crate::names::number_below;
use crate::section::Section;
use crate::words::Words;
use inf_order::{MOST_MOVES, Move, Moves};

fn step_move(client: Option<u32>) -> Result<Move, LineFault>
    ensures { Gives line_cause result (step_move client) }
{
    match client {
        Some(client) => Ok(Move::Step(client)),
        None => Err(UNKNOWN_CLIENT),
    }
}

fn alone_move(client: Option<u32>) -> Result<Move, LineFault>
    ensures { Gives line_cause result (alone_move client) }
{
    match client {
        Some(client) => Ok(Move::Alone(client)),
        None => Err(UNKNOWN_CLIENT),
    }
}

fn serve_client(number: u32, client: Option<u32>) -> Result<Move, LineFault>
    ensures { Gives line_cause result (serve_client number client) }
{
    match client {
        Some(client) => Ok(Move::Serve {
            number,
            client: Some(client),
        }),
        None => Err(UNKNOWN_CLIENT),
    }
}

fn serve_move(clients: &ClientTable, number: u32, name: Option<&[u8]>) -> Result<Move, LineFault>
    ensures { Gives line_cause result (serve_move clients.now number (option_copied name.entry)) }
{
    match name {
        Some(name) => serve_client(number, clients.place_of(name)),
        None => Ok(Move::Serve {
            number,
            client: None,
        }),
    }
}

/// What stands behind the letter of a server.
fn server_move(servers: u32, clients: &ClientTable, text: &[u8]) -> Result<Move, LineFault>
    ensures { Gives line_cause result (server_text servers clients.now text.now) }
{
    let (spelt, name) = cut_at(text, position_of(text, b':'));
    let number = number_below(servers, spelt)?;
    serve_move(clients, number, name)
}

/// What stands behind the letter of the coordinator.
fn coordinator_move(servers: u32, clients: &ClientTable, text: &[u8]) -> Result<Move, LineFault>
    ensures { Gives line_cause result (coordinator_move servers clients.now text.now) }
{
    let Some((first, name)) = text.split_first() else {
        return serve_move(clients, servers, None);
    };
    if *first != b':' {
        return Err(BAD_WORD);
    }
    serve_move(clients, servers, Some(name))
}

fn rest_move(text: &[u8]) -> Result<Move, LineFault>
    ensures { Gives line_cause result (rest_move text.now) }
{
    if text.is_empty() {
        return Ok(Move::Rest);
    }
    Err(BAD_WORD)
}

/// The move that a word spells.
fn move_of(servers: u32, clients: &ClientTable, word: &[u8]) -> Result<Move, LineFault>
    ensures { Gives line_cause result (move_of servers clients.now word.now) }
{
    let Some((sign, text)) = word.split_first() else {
        return Err(BAD_WORD);
    };
    match *sign {
        b'+' => step_move(clients.place_of(text)),
        b'=' => alone_move(clients.place_of(text)),
        b's' => server_move(servers, clients, text),
        b'c' => coordinator_move(servers, clients, text),
        b'*' => rest_move(text),
        _ => Err(BAD_WORD),
    }
}

/// These moves, and those that the words spell behind them.
fn moves_from(
    servers: u32,
    clients: &ClientTable,
    moves: Moves,
    words: Words<'_>,
) -> Result<Moves, LineFault>
    ensures { Gives line_cause result (moves_from servers clients.now (Ok moves) words.entry) }
{
    let mut made = moves.into_vec();
    let mut left = words;
    while let Some((word, rest)) = left.split_first() {
        left = rest;
        let next = move_of(servers, clients, word)?;
        made.push(next)?;
    }
    Ok(Moves::new(made))
}

fn order_moves(draft: Draft, words: Words<'_>) -> Result<Draft, LineFault>
    ensures { Gives line_cause result (order_moves draft words.entry) }
{
    if words.is_empty() {
        return Err(BAD_WORD);
    }
    let number = draft.servers();
    let Draft {
        servers,
        digest_bytes,
        clients,
        moves,
        ..
    } = draft;
    let moves = moves_from(number, &clients, moves, words)?;
    if moves.len() > MOST_MOVES {
        return Err(TOO_MANY);
    }
    Ok(Draft {
        reached: Section::Order,
        servers,
        digest_bytes,
        clients,
        moves,
    })
}

/// `order MOVE ..`.
pub fn order_line(draft: Draft, words: Words<'_>) -> Result<Draft, LineFault>
    ensures { Gives line_cause result (order_line draft words.entry) }
{
    if !Section::Order.may_stand(draft.reached) {
        return Err(BAD_WORD);
    }
    order_moves(draft, words)
}

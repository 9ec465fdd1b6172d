//! Scripts, run on a session.
ghost use Rattle.std.specs.Prelude.{◌≡◌, ◌++◌, OnOk, OnErr, IfOk, IsOk, take, length, codes, decimal, [], ◌∷◌};
ghost use Rattle.line_printer.specs.LineFile.{ended};
ghost use Rattle.play_session.specs.Held.{Stands};
ghost use Rattle.play_session.specs.Moves.{after_order, after_orders};
ghost use Rattle.play_session.specs.SessionText.{answer_text, session_text};
ghost use Rattle.play_session.specs.Runs.{IsAfterSome, Keeps};
ghost use Rattle.play_session.specs.declared.order.Order.TheVariants.{Make, Undo, Redo, Show, Solved};

use crate::{NothingToRedo, NothingToUndo, Order, PlayFault, Script, Session};
use card_piles::NoMemory;
use deal_reader::write_position;
use game_model::Rules;
use legal_moves::Move;
use std::alloc::Global;

/// Appends a text and a newline.
fn push_line(out: &mut Vec<u8>, text: &[u8]) -> Result<(), NoMemory>
    ensures pushed { OnOk result (out.new.items ≡ out.old.items ++ ended text.now) }
    ensures begun { OnErr result (take (length out.old.items) out.new.items ≡ out.old.items) }
{
    out.extend_from_slice(text)?;
    out.push(b'\n')?;
    Ok(())
}

/// Makes a move, and gives what is said of it.
fn make(session: &mut Session, rules: &Rules, m: Move) -> Result<&'static str, NoMemory>
    requires rules { rules.now ≡ session.old.rules }
    ensures said { IfOk result (λ said. said.now
        ≡ answer_text rules.now session.old.start session.old.moves (Make m)) }
    ensures moves { OnOk result (session.new.moves
        ≡ after_order rules.now session.old.start session.old.moves (Make m)) }
    ensures refused { OnErr result (session.new.moves ≡ session.old.moves) }
    ensures keeps { Keeps session.old session.new }
{
    match session.apply(rules, m) {
        Ok(()) => Ok("ok"),
        Err(PlayFault::NotLegal) => Ok("refused not-legal"),
        Err(PlayFault::Memory) => Err(NoMemory),
    }
}

/// Takes a move back, and gives what is said of it.
fn undo(session: &mut Session) -> &'static str
    ensures said { result.now
        ≡ answer_text session.old.rules session.old.start session.old.moves Undo }
    ensures moves { session.new.moves
        ≡ after_order session.old.rules session.old.start session.old.moves Undo }
    ensures keeps { Keeps session.old session.new }
{
    match session.undo() {
        Ok(_) => "ok",
        Err(NothingToUndo) => "refused nothing-to-undo",
    }
}

/// Makes a move again, and gives what is said of it.
fn redo(session: &mut Session, rules: &Rules) -> &'static str
    requires rules { rules.now ≡ session.old.rules }
    ensures said { result.now
        ≡ answer_text rules.now session.old.start session.old.moves Redo }
    ensures moves { session.new.moves
        ≡ after_order rules.now session.old.start session.old.moves Redo }
    ensures keeps { Keeps session.old session.new }
{
    match session.redo(rules) {
        Ok(_) => "ok",
        Err(NothingToRedo) => "refused nothing-to-redo",
    }
}

/// Says whether the board is won.
fn solved(session: &Session, rules: &Rules) -> &'static str
    requires rules { rules.now ≡ session.now.rules }
    ensures { result.now ≡ answer_text rules.now session.now.start session.now.moves Solved }
{
    if session.is_won(rules) { "yes" } else { "no" }
}

/// Appends the text of the position and a newline.
fn show(alloc: Global, session: &Session, rules: &Rules, out: &mut Vec<u8>) -> Result<(), NoMemory>
    requires rules { rules.now ≡ session.now.rules }
    ensures pushed { OnOk result (out.new.items ≡ out.old.items
        ++ ended (answer_text rules.now session.now.start session.now.moves Show)) }
    ensures begun { OnErr result (take (length out.old.items) out.new.items ≡ out.old.items) }
{
    let board = session.board(alloc, rules)?;
    let text = write_position(alloc, rules, &board)?;
    push_line(out, text.as_slice())
}

/// Carries out an order, and appends its line.
fn run_order(
    alloc: Global,
    session: &mut Session,
    rules: &Rules,
    order: Order,
    out: &mut Vec<u8>,
) -> Result<(), NoMemory>
    requires rules { rules.now ≡ session.old.rules }
    ensures pushed { OnOk result (out.new.items ≡ out.old.items
        ++ ended (answer_text rules.now session.old.start session.old.moves order)) }
    ensures moves { OnOk result (session.new.moves
        ≡ after_order rules.now session.old.start session.old.moves order) }
    ensures begun { OnErr result (take (length out.old.items) out.new.items ≡ out.old.items) }
    ensures refused { OnErr result (IsAfterSome rules.now session.old.start session.old.moves
        (order ∷ []) session.new.moves) }
    ensures keeps { Keeps session.old session.new }
{
    session.keep();
    match order {
        Order::Make(m) => {
            let said = make(session, rules, m)?;
            push_line(out, said.as_bytes())
        }
        Order::Undo => push_line(out, undo(session).as_bytes()),
        Order::Redo => push_line(out, redo(session, rules).as_bytes()),
        Order::Show => show(alloc, session, rules, out),
        Order::Solved => push_line(out, solved(session, rules).as_bytes()),
    }
}

/// Appends how many moves stand.
fn push_standing(alloc: Global, count: usize, out: &mut Vec<u8>) -> Result<(), NoMemory>
    ensures pushed { OnOk result (out.new.items ≡ out.old.items
        ++ ended (codes "standing " ++ decimal count)) }
    ensures begun { OnErr result (take (length out.old.items) out.new.items ≡ out.old.items) }
{
    let text = format!(in alloc; "standing {count}")?;
    push_line(out, text.as_bytes())
}

/// Carries out each order in turn, and appends the lines.
fn run_orders(
    alloc: Global,
    session: &mut Session,
    rules: &Rules,
    orders: &[Order],
    out: &mut Vec<u8>,
) -> Result<(), NoMemory>
    requires rules { rules.now ≡ session.old.rules }
    ensures text { OnOk result (out.new.items ≡ out.old.items
        ++ session_text rules.now session.old.start session.old.moves orders.now) }
    ensures moves { OnOk result (session.new.moves
        ≡ after_orders rules.now session.old.start session.old.moves orders.now) }
    ensures begun { OnErr result (take (length out.old.items) out.new.items ≡ out.old.items) }
    ensures prefix { OnErr result (IsAfterSome rules.now session.old.start session.old.moves
        orders.now session.new.moves) }
    ensures keeps { Keeps session.old session.new }
{
    session.keep();
    for order in orders {
        run_order(alloc, session, rules, *order, out)?;
    }
    push_standing(alloc, session.standing().len(), out)
}

/// Carries out each order in turn, and appends a line for each of them to `out`: `ok` where it was
/// done, `refused not-legal`, `refused nothing-to-undo` or `refused nothing-to-redo` where it was
/// not, the text of the position for `show`, and `yes` or `no` for `solved?`. Last comes `standing`
/// with the number of moves that stand.
///
/// After a refusal the session stands after some of the first orders, and `out` is as before.
pub fn run_script(
    alloc: Global,
    session: &mut Session,
    rules: &Rules,
    script: &Script,
    out: &mut Vec<u8>,
) -> Result<(), NoMemory>
    requires rules { rules.now ≡ session.old.rules }
    ensures text { OnOk result (out.new.items ≡ out.old.items
        ++ session_text rules.now session.old.start session.old.moves script.now) }
    ensures moves { OnOk result (session.new.moves
        ≡ after_orders rules.now session.old.start session.old.moves script.now) }
    ensures as_before { OnErr result (out.new.items ≡ out.old.items) }
    ensures prefix { OnErr result (IsAfterSome rules.now session.old.start session.old.moves
        script.now session.new.moves) }
    ensures same_rules { session.new.rules ≡ session.old.rules }
    ensures same_start { session.new.start ≡ session.old.start }
    ensures stands { Stands session.new }
{
    let size = out.len();
    let run = run_orders(alloc, session, rules, script.items(), out);
    if run.is_err() {
        out.truncate(size);
    }
    run
}

//! Scripts, read.
ghost use Rattle.std.specs.Prelude.{◌≡◌, ◌≤◌, length, IfOk};
ghost use Rattle.line_printer.specs.LineFile.{parts_of};
ghost use Rattle.play_session.specs.ScriptFile.{order_of_text, orders_from, script_of};
ghost use Rattle.play_session.specs.ScriptText.{script_text};
ghost use Rattle.play_session.specs.Reads.{ReadsAs};

use crate::{Order, Script, ScriptFault};
use line_printer::move_of::{move_of, split_once};
use std::alloc::Global;

/// The greatest length of a script in bytes.
const MOST_BYTES: usize = 65_536;

/// The order whose text this is.
#[tactic(auto, unfolding(crate::specs::ScriptFile::order_of_text))]
fn order_of(text: &[u8]) -> Option<Order>
    ensures { result ≡ order_of_text text.now }
{
    if text == b"undo".as_slice() {
        Some(Order::Undo)
    } else if text == b"redo".as_slice() {
        Some(Order::Redo)
    } else if text == b"show".as_slice() {
        Some(Order::Show)
    } else if text == b"solved?".as_slice() {
        Some(Order::Solved)
    } else {
        Some(Order::Make(move_of(text)?))
    }
}

/// The orders of lines, of which the first has the number 1.
fn orders_of(alloc: Global, text: &[u8]) -> Result<Script, ScriptFault>
    requires { length text.now ≤ 65536 }
    ensures { ReadsAs result (orders_from 1 (parts_of text.now)) }
{
    let mut orders = Vec::new(alloc);
    let mut line = 1;
    let mut rest = text;
    while let Some((part, after)) = split_once(rest, b'\n') {
        let Some(order) = order_of(part) else {
            return Err(ScriptFault::BadOrder { line });
        };
        orders.push(order)?;
        rest = after;
        line += 1;
    }
    if rest.is_empty() {
        Ok(Script::from_vec(orders))
    } else {
        Err(ScriptFault::BadOrder { line })
    }
}

/// Reads a script: one order a line, which is a move's text, `undo`, `redo`, `show` or `solved?`.
///
/// `TooLong` is answered exactly where the file has more than 65,536 bytes, and else `BadOrder` with
/// the number, from 1, of the first line that is no such text or has no newline at its end.
pub fn read_script(alloc: Global, bytes: &[u8]) -> Result<Script, ScriptFault>
    ensures read { ReadsAs result (script_of bytes.now) }
    ensures written { IfOk result (λ script. bytes.now ≡ script_text script) }
{
    if bytes.len() > MOST_BYTES {
        return Err(ScriptFault::TooLong);
    }
    orders_of(alloc, bytes)
}

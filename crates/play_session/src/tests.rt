//! Sessions on a small deal, by calls and by scripts.
ghost use Rattle.std.specs.Prelude.{◌≡◌, OnOk};

use crate::{Order, Script, ScriptFault, Session, read_script, run_script};
use game_model::Rules;
use legal_moves::{Move, PlayFault};
use small_games::{board_of, move_of, rules_of, same_boards};
use std::alloc::Global;
use std::test::Fail;

/// An ace under the two, beside an empty pile.
const RULES: &str = "ranks 2 piles 2 cells 0 reserve 0 stock 0";

const DEAL: &str = "pile AC 2C home 0 2 2 2";

const MOVED: &str = "pile AC pile 2C home 0 2 2 2";

/// What a script prints on the deal.
fn text_of(alloc: Global, script: &str) -> Result<String, Fail> {
    let rules = rules_of(RULES)?;
    let start = board_of(alloc, &rules, DEAL)?;
    let mut session = Session::new(alloc, &rules, &start)?;
    let script = read_script(alloc, script.as_bytes()).map_err(|_| "a script")?;
    let mut out = Vec::new(alloc);
    run_script(alloc, &mut session, &rules, &script, &mut out)?;
    Ok(String::from_utf8(out).map_err(|_| "a text")?)
}

#[test]
fn what_cannot_be_done_is_refused(rt: HostRuntime) -> Result<(), Fail> {
    let alloc = rt.alloc();
    let text = text_of(alloc, "t0 f0\nt0 t1 1\nundo\nundo\nredo\nsolved?\n")?;
    assert_eq!(rt;
        text.as_str(),
        "refused not-legal\nok\nok\nrefused nothing-to-undo\nok\nno\nstanding 1\n"
    );
    Ok(())
}

#[test]
fn after_a_new_move_nothing_is_made_again(rt: HostRuntime) -> Result<(), Fail> {
    let alloc = rt.alloc();
    let text = text_of(
        alloc,
        "t0 t1 1\nundo\nt0 t1 1\nredo\nt0 f0\nt1 f0\nsolved?\n",
    )?;
    assert_eq!(rt;
        text.as_str(),
        "ok\nok\nok\nrefused nothing-to-redo\nok\nok\nyes\nstanding 3\n"
    );
    Ok(())
}

const SHOWN: &str = "{\"cells\":[],\"face down\":[0,0],\"foundations\":[0,2,2,2],\"hole\":[],\
\"redeals left\":0,\"reserve\":[],\"rows\":[],\"stock\":[],\"tableau\":[[\"AC\"],[\"2C\"]],\"waste\":[]}\n\
standing 1\n";

#[test]
fn the_board_is_shown_on_a_line(rt: HostRuntime) -> Result<(), Fail> {
    let alloc = rt.alloc();
    let text = text_of(alloc, "t0 t1 1\nshow\n")?;
    assert!(rt; text.as_str().strip_prefix("ok\n") == Some(SHOWN));
    assert_eq!(rt; text_of(alloc, "")?.as_str(), "standing 0\n");
    Ok(())
}

/// The fault of a file, or none where it is read.
fn fault_of(alloc: Global, bytes: &[u8]) -> Option<ScriptFault> {
    match read_script(alloc, bytes) {
        Ok(_) => None,
        Err(fault) => Some(fault),
    }
}

#[test]
fn the_first_bad_order_is_named(rt: HostRuntime) {
    let alloc = rt.alloc();
    let rows: [(&[u8], u64); 6] = [
        (b"undo\nback\n", 2),
        (b"undo\nredo", 2),
        (b"undo \n", 1),
        (b"\n", 1),
        (b"t0 t1\n", 1),
        (b"deal\nshow\nsolved\n", 3),
    ];
    for (bytes, line) in rows {
        assert!(rt;
            fault_of(alloc, bytes) == Some(ScriptFault::BadOrder { line }),
            "{bytes:?}"
        );
    }
}

#[test]
fn a_script_reads_as_its_orders(rt: HostRuntime) -> Result<(), Fail> {
    let alloc = rt.alloc();
    let orders = [
        Order::Make(Move::Deal),
        Order::Undo,
        Order::Redo,
        Order::Show,
        Order::Solved,
    ];
    let read = read_script(alloc, b"deal\nundo\nredo\nshow\nsolved?\n").map_err(|_| "a script")?;
    assert!(rt; read.items() == orders.as_slice());
    let made = Script::from_vec(Vec::from_slice(alloc, orders.as_slice())?);
    assert!(rt; made.items() == orders.as_slice());
    Ok(())
}

#[test]
fn faults_are_printed(rt: HostRuntime) -> Result<(), Fail> {
    let alloc = rt.alloc();
    assert_eq!(rt; ScriptFault::TooLong.to_string(alloc)?.as_str(), "too-long");
    assert_eq!(rt;
        ScriptFault::BadOrder { line: 2 }.to_string(alloc)?.as_str(),
        "bad-order 2"
    );
    assert_eq!(rt; ScriptFault::Memory.to_string(alloc)?.as_str(), "memory");
    Ok(())
}

/// Makes a move and takes it back: the packed board is as before, in every slot and link.
fn go_and_come_back(session: &mut Session, rules: &Rules, m: Move) -> Result<(), PlayFault>
    requires { rules.now ≡ session.old.rules }
    ensures back { OnOk result (session.new.packed ≡ session.old.packed) }
    ensures rules { session.new.rules ≡ session.old.rules }
{
    session.apply(rules, m)?;
    let _taken_back = session.undo();
    Ok(())
}

#[test]
fn a_move_goes_and_comes_back(rt: HostRuntime) -> Result<(), Fail> {
    let alloc = rt.alloc();
    let rules = rules_of(RULES)?;
    let start = board_of(alloc, &rules, DEAL)?;
    let moved = board_of(alloc, &rules, MOVED)?;
    let m = move_of("t0 t1");
    let mut session = Session::new(alloc, &rules, &start)?;
    assert!(rt; go_and_come_back(&mut session, &rules, m) == Ok(()));
    let there = session.board(alloc, &rules)?;
    assert!(rt; same_boards(&rules, &there, &start));
    assert!(rt; session.standing().is_empty() && session.undone() == [m].as_slice());
    assert!(rt; session.redo(&rules) == Ok(m));
    let there = session.board(alloc, &rules)?;
    assert!(rt; same_boards(&rules, &there, &moved));
    assert!(rt; session.standing() == [m].as_slice() && session.undone().is_empty());
    assert!(rt; !session.is_won(&rules));
    Ok(())
}

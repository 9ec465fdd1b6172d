//! Callers of the top call whose contracts say, in the words of the game and of three files, how two jobs end that are
//! done one after the other. If a clause of `patience` said less, or asked for what no caller has, they could not be
//! proved.
ghost use Rattle.std.specs.Prelude.{◌≡◌, ◌∷◌, [], IfOk, Some, codes};
ghost use Rattle.outside_io.specs.Faults.{Rose};
ghost use Rattle.outside_io.specs.MemoryShelf.{shelf_files};
ghost use Rattle.solver_words.specs.Texts.{texts};
ghost use Rattle.patience.specs.FileWords.{Files, AreGiven, EndsSolve, EndsReplay, WritesBoth};
ghost use Rattle.patience.specs.declared.status.Status.TheVariants.{SinkFailed};

use crate::plain_words_tests::solve_words;
use crate::status::Status;
use crate::tests::{DEAL, RULES, WON};
use crate::top::patience;
use outside_io::{MemoryShelf, MemorySink, Shelf, ShelfFault, Sink};
use std::alloc::{AllocError, Global};
use std::test::Fail;

/// A shelf in memory that never fails: where it would, it says that there is no memory.
#[derive(Drop)]
struct CalmShelf {
    inner: MemoryShelf,
}

impl Shelf for CalmShelf {
    ghost files = { λ shelf. Some (shelf_files shelf.inner) };

    ghost faults = { λ _ _. 0 };

    fn fetch(&mut self, name: &str, limit: u64, out: &mut Vec<u8>) -> Result<(), ShelfFault> {
        match self.inner.fetch(name, limit, out) {
            Ok(()) => Ok(()),
            Err(_) => Err(ShelfFault::Memory),
        }
    }
}

/// How the two jobs ended.
#[derive(Drop)]
struct Endings {
    solved: Status,
    replayed: Status,
}

/// The words of a job that replays the file `line` from the file `deal` by the file `rules`.
fn replay_words(alloc: Global) -> Result<Vec<String>, AllocError>
    ensures { IfOk result (λ words. texts words.items
        ≡ codes "replay" ∷ codes "rules" ∷ codes "deal" ∷ codes "line" ∷ []) }
{
    let mut words = Vec::new(alloc);
    words.push(String::from_str(alloc, "replay")?)?;
    words.push(String::from_str(alloc, "rules")?)?;
    words.push(String::from_str(alloc, "deal")?)?;
    words.push(String::from_str(alloc, "line")?)?;
    Ok(words)
}

/// Solves the deal of the shelf and then replays the line, with one sink.
fn solve_and_replay<S: Shelf, K: Sink>(
    alloc: Global,
    shelf: &mut S,
    sink: &mut K,
) -> Result<Endings, AllocError>
    ensures solved { IfOk result (λ endings. (files : Files)
        → AreGiven (S.files shelf.old) (S.faults shelf.old) (S.faults shelf.new) files
        → EndsSolve files endings.solved) }
    ensures replayed { IfOk result (λ endings. (files : Files)
        → AreGiven (S.files shelf.old) (S.faults shelf.old) (S.faults shelf.new) files
        → EndsReplay files endings.replayed) }
    ensures written { ¬ Rose (K.faults sink.old) (K.faults sink.new) → IfOk result (λ endings. (files : Files)
        → AreGiven (S.files shelf.old) (S.faults shelf.old) (S.faults shelf.new) files
        → WritesBoth files (K.written sink.old) (K.written sink.new) endings.solved endings.replayed) }
    ensures sink_failed { IfOk result (λ endings. endings.solved ≡ SinkFailed
        → Rose (K.faults sink.old) (K.faults sink.new)) }
{
    let words = solve_words(alloc)?;
    let solved = patience(alloc, &words, shelf, sink);
    let words = replay_words(alloc)?;
    let replayed = patience(alloc, &words, shelf, sink);
    Ok(Endings { solved, replayed })
}

/// Solves a deal and replays a line whose files stand in memory.
fn both_in_memory<K: Sink>(
    alloc: Global,
    rules: &[u8],
    deal: &[u8],
    line: &[u8],
    sink: &mut K,
) -> Result<Endings, Fail>
    ensures solved { IfOk result (λ endings.
        EndsSolve (record { rules = rules.now; deal = deal.now; line = line.now }) endings.solved) }
    ensures replayed { IfOk result (λ endings.
        EndsReplay (record { rules = rules.now; deal = deal.now; line = line.now }) endings.replayed) }
    ensures written { ¬ Rose (K.faults sink.old) (K.faults sink.new) → IfOk result (λ endings.
        WritesBoth (record { rules = rules.now; deal = deal.now; line = line.now })
        (K.written sink.old) (K.written sink.new) endings.solved endings.replayed) }
{
    let mut inner = MemoryShelf::new(alloc);
    inner.add("rules", rules)?;
    inner.add("deal", deal)?;
    inner.add("line", line)?;
    let mut shelf = CalmShelf { inner };
    let endings = solve_and_replay(alloc, &mut shelf, sink)?;
    Ok(endings)
}

#[test]
fn a_deal_is_solved_and_its_line_is_replayed(rt: HostRuntime) -> Result<(), Fail> {
    let alloc = rt.alloc();
    let (rules, deal, line) = (RULES.as_bytes(), DEAL.as_bytes(), WON.as_bytes());
    let mut sink = MemorySink::new(alloc, 1000)?;
    let endings = both_in_memory(alloc, rules, deal, line, &mut sink)?;
    assert_eq!(rt; endings.solved, Status::Done);
    assert_eq!(rt; endings.replayed, Status::Done);
    let want = format!(in alloc; "{WON}wins\nmoves 7\n")?;
    assert!(rt; sink.bytes() == want.as_bytes());
    Ok(())
}

//! A caller of the top call whose contract says, in the words of the game and of two files, what may be printed. If a
//! clause of `patience` said less, this contract could not be proved.
ghost use Rattle.std.specs.Prelude.{◌≡◌, ◌∷◌, [], IfOk, codes};
ghost use Rattle.solver_words.specs.Texts.{texts};
ghost use Rattle.patience.specs.PlainWords.{Prints};

use crate::status::Status;
use crate::top::patience;
use outside_io::{MemoryShelf, MemorySink};
use std::alloc::{AllocError, Global};
use std::test::Fail;

/// How a run ended, and what it printed.
#[derive(Drop)]
struct Printed {
    status: Status,
    text: Vec<u8>,
}

/// The words of a job that solves the file `deal` by the file `rules`.
pub fn solve_words(alloc: Global) -> Result<Vec<String>, AllocError>
    ensures { IfOk result (λ words. texts words.items ≡ codes "solve" ∷ codes "rules" ∷ codes "deal" ∷ []) }
{
    let mut words = Vec::new(alloc);
    words.push(String::from_str(alloc, "solve")?)?;
    words.push(String::from_str(alloc, "rules")?)?;
    words.push(String::from_str(alloc, "deal")?)?;
    Ok(words)
}

/// Solves a deal whose two files stand in memory.
fn solve_in_memory(alloc: Global, rules: &[u8], deal: &[u8]) -> Result<Printed, Fail>
    ensures { IfOk result (λ printed. Prints rules.now deal.now printed.status printed.text.items) }
{
    let mut shelf = MemoryShelf::new(alloc);
    shelf.add("rules", rules)?;
    shelf.add("deal", deal)?;
    let mut sink = MemorySink::new(alloc, 1 << 20)?;
    let words = solve_words(alloc)?;
    let status = patience(alloc, &words, &mut shelf, &mut sink);
    let text = sink.bytes().to_vec(alloc)?;
    Ok(Printed { status, text })
}

#[test]
fn a_deal_in_memory_is_solved(rt: HostRuntime) -> Result<(), Fail> {
    let rules = br#"{"max rank":2,"tableau":{"piles":1}}"#;
    let deal = br#"{"tableau":[["AC","2C"]],"foundations":[0,2,2,2]}"#;
    let printed = solve_in_memory(rt.alloc(), rules, deal)?;
    assert_eq!(rt; printed.status, Status::Done);
    assert!(rt; printed.text.as_slice() == "unwinnable\nnodes 1\nnarrow 0\n".as_bytes());
    Ok(())
}

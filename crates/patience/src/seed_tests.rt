//! Deals from seeds: what `deal` prints is read back, and is what `solve --seed` solves.
use crate::status::Status;
use crate::tests::{print, shelf_of};
use deal_reader::{read_position, write_position};
use rules_json::read_rules;
use std::alloc::Global;
use std::test::Fail;

/// The rules of the games that have files, and of one with a filled cell, a stacked reserve, started
/// foundations and two decks.
const GAMES: &str = r#"{"tableau":{"piles":8,"build":"red-black"},"cells":{"count":4}}
{"tableau":{"piles":7,"layout":"triangle","face":"top up","build":"red-black","groups":"run","spaces":"king"},"stock":{"size":24,"draw":3,"redeals":"unlimited"}}
{"tableau":{"piles":17,"spaces":"none"},"hole":{"start":"AS"}}
{"tableau":{"piles":7,"spaces":"none"},"hole":{"wrap":false},"stock":{"size":16,"to":"hole"}}
{"decks":2,"tableau":{"piles":10,"face":"top up","build":"any-suit","groups":"run","group build":"same-suit"},"foundations":{"complete runs":true},"stock":{"size":50,"to":"tableau"}}
{"sequences":{}}
{"tableau":{"piles":8,"build":"any-suit"},"foundations":{"started":true}}
{"max rank":6,"tableau":{"piles":4,"build":"red-black"},"cells":{"count":1}}
{"decks":2,"tableau":{"piles":9,"layout":"triangle","face":"top up"},"foundations":{"base":7,"started":true},"cells":{"count":3,"filled":2},"reserve":{"size":11,"stacked":true}}
{"decks":2,"max rank":7,"sequences":{}}"#;

/// Whether the printed deal of the seed is spelled as it is read, and is solved as the seed is.
fn is_read_back(alloc: Global, game: &str, seed: u64) -> Result<bool, Fail> {
    let mut shelf = shelf_of(alloc, game.as_bytes(), b"")?;
    let words = format!(in alloc; "deal rules --seed {seed}")?;
    let deal = print(alloc, &mut shelf, words.as_str())?;
    let rules = read_rules(alloc, game.as_bytes())?;
    let board = read_position(alloc, &rules, &deal.text)?;
    let mut text = write_position(alloc, &rules, &board)?;
    text.push(b'\n')?;

    let words = format!(in alloc; "solve rules --seed {seed} --nodes 50")?;
    let from_seed = print(alloc, &mut shelf, words.as_str())?;
    let mut shelf = shelf_of(alloc, game.as_bytes(), &deal.text)?;
    let from_file = print(alloc, &mut shelf, "solve rules deal --nodes 50")?;
    Ok(
        deal.status == Status::Done
            && text.as_slice() == deal.text.as_slice()
            && from_seed.status == Status::Done
            && from_seed.text.as_slice() == from_file.text.as_slice(),
    )
}

#[test]
fn a_printed_deal_is_read_back_and_solved_alike(rt: HostRuntime) -> Result<(), Fail> {
    for game in GAMES.split('\n') {
        for seed in [0, 1, 18_446_744_073_709_551_615] {
            assert!(rt; is_read_back(rt.alloc(), game, seed)?, "{seed} of {game}");
        }
    }
    Ok(())
}

#[test]
fn seed_1_of_freecell_is_undecided_or_its_win_is_replayed(rt: HostRuntime) -> Result<(), Fail> {
    let alloc = rt.alloc();
    let rules = br#"{"tableau":{"piles":8,"build":"red-black"},"cells":{"count":4}}"#;
    let mut shelf = shelf_of(alloc, rules, b"")?;
    let deal = print(alloc, &mut shelf, "deal rules --seed 1")?;
    let verdict = print(alloc, &mut shelf, "solve rules --seed 1 --nodes 1000")?;
    assert_eq!(rt; verdict.status, Status::Done);
    if verdict.text.as_slice() != b"undecided\nnodes 1000\nnarrow 0\n".as_slice() {
        let mut shelf = shelf_of(alloc, rules, &deal.text)?;
        shelf.add("line", &verdict.text)?;
        let replayed = print(alloc, &mut shelf, "replay rules deal line")?;
        assert!(rt; replayed.text.as_slice().starts_with(b"wins\nmoves "));
    }
    Ok(())
}

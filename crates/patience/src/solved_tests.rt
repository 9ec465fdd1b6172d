//! Small games of many kinds, one won and one lost of most, solved by the whole program with each memo. What is
//! expected was worked out apart from it.
use crate::status::Status;
use crate::tests::{print, shelf_of};
use std::alloc::Global;
use std::test::Fail;

/// For each game a name, the rules file, the deal file and the word of its verdict.
const GAMES: &str = r#"a hole
{"max rank":2,"tableau":{"piles":4,"spaces":"none"},"hole":{"start":"AS"}}
{"tableau":[["2C"],["AC","2D"],["AD","2H"],["AH","2S"]],"hole":["AS"]}
winnable

a cell and spaces for any card
{"max rank":4,"tableau":{"piles":2,"build":"red-black"},"cells":{"count":1}}
{"tableau":[["4S","3S","3D","2C","4D"],["2D","4H","4C","3H","3C"]],"foundations":[1,1,2,2]}
winnable

spaces for kings
{"max rank":3,"tableau":{"piles":3,"build":"any-suit","spaces":"king"}}
{"tableau":[["2H","3H","AH"],["2C","3S","2D"],["2S","3D","3C"]],"foundations":[1,1,0,1]}
unwinnable

spaces for no card
{"max rank":4,"tableau":{"piles":3,"build":"red-black","spaces":"none"},"cells":{"count":1}}
{"tableau":[["4H","3C","4C","3H"],["3S","4D","2S"],["2D","3D","4S"]],"foundations":[2,1,2,1]}
winnable

two decks
{"decks":2,"max rank":2,"tableau":{"piles":3,"build":"any-suit"}}
{"tableau":[["2D","2H","2H","2S"],["2S","2C","2C"]],"foundations":[1,1,1,1,1,2,1,1]}
winnable

a reserve
{"max rank":3,"tableau":{"piles":2,"build":"red-black"},"reserve":{"size":2}}
{"tableau":[["3D","2C","3H"],["2H","3C"]],"reserve":["3S","2D"],"foundations":[1,1,1,2]}
unwinnable

a stacked reserve
{"max rank":3,"tableau":{"piles":3,"build":"any-suit","spaces":"none"},"reserve":{"size":3,"stacked":true}}
{"tableau":[["3H","3S"],["2C","2D"],["2H"]],"reserve":["AD","3C","3D"],"foundations":[1,0,1,2]}
unwinnable

cards taken back from the foundations
{"max rank":3,"tableau":{"piles":2,"build":"red-black","spaces":"none"},"foundations":{"take back":true}}
{"tableau":[["2C","3C","3H"],["3D","3S","2D"]],"foundations":[1,1,2,2]}
unwinnable

runs of one suit, and cards face down
{"max rank":3,"tableau":{"piles":3,"face":"top up","build":"any-suit","groups":"run","group build":"same-suit","spaces":"king"}}
{"tableau":[["AH","3H","3C","2H"],["2C","3S","AC"]],"foundations":[0,3,0,2]}
winnable

ranks that wrap round
{"max rank":3,"tableau":{"piles":3,"build":"any-suit","wrap":true,"spaces":"none"},"foundations":{"base":2}}
{"tableau":[["AS","3C","AC"],["AD","3D","AH"],["3H","3S"]],"foundations":[1,1,1,1]}
unwinnable

one drawn, no redeal: each card of the waste is the next
{"max rank":3,"stock":{"size":3}}
{"stock":["AC","2C","3C"],"foundations":[0,3,3,3]}
winnable

one drawn, no redeal: the three lies on the two
{"max rank":3,"stock":{"size":3}}
{"stock":["AC","3C","2C"],"foundations":[0,3,3,3]}
unwinnable

one drawn, two redeals: both are needed
{"max rank":5,"stock":{"size":5,"redeals":2}}
{"stock":["AC","3C","2C","5C","4C"],"foundations":[0,5,5,5]}
winnable

one drawn, two redeals: three are needed
{"max rank":6,"stock":{"size":6,"redeals":2}}
{"stock":["AC","4C","2C","6C","3C","5C"],"foundations":[0,6,6,6]}
unwinnable

one drawn, unlimited redeals: three are needed
{"max rank":6,"stock":{"size":6,"redeals":"unlimited"}}
{"stock":["AC","4C","2C","6C","3C","5C"],"foundations":[0,6,6,6]}
winnable

one drawn, unlimited redeals: the ace lies under the three
{"max rank":3,"tableau":{"piles":1,"spaces":"none"},"stock":{"size":1,"redeals":"unlimited"}}
{"tableau":[["AC","3C"]],"stock":["2C"],"foundations":[0,3,3,3]}
unwinnable

three drawn, no redeal: the last deal has one card
{"max rank":4,"stock":{"size":4,"draw":3}}
{"stock":["4C","AC","2C","3C"],"foundations":[0,4,4,4]}
winnable

three drawn, no redeal: the four lies on the three
{"max rank":4,"stock":{"size":4,"draw":3}}
{"stock":["AC","2C","4C","3C"],"foundations":[0,4,4,4]}
unwinnable

three drawn, two redeals: both are needed
{"max rank":6,"stock":{"size":6,"draw":3,"redeals":2}}
{"stock":["6C","3C","2C","AC","4C","5C"],"foundations":[0,6,6,6]}
winnable

three drawn, two redeals: three are needed
{"max rank":7,"stock":{"size":7,"draw":3,"redeals":2}}
{"stock":["6C","AC","4C","3C","2C","5C","7C"],"foundations":[0,7,7,7]}
unwinnable

three drawn, unlimited redeals: three are needed
{"max rank":7,"stock":{"size":7,"draw":3,"redeals":"unlimited"}}
{"stock":["6C","AC","4C","3C","2C","5C","7C"],"foundations":[0,7,7,7]}
winnable

three drawn, unlimited redeals: each pass ends with the ace at the bottom
{"max rank":3,"stock":{"size":3,"draw":3,"redeals":"unlimited"}}
{"stock":["3C","2C","AC"],"foundations":[0,3,3,3]}
unwinnable

to the tableau, one card for two piles: the two covers the ace, or an empty pile stops the deal
{"max rank":3,"tableau":{"piles":2,"spaces":"none"},"stock":{"size":1,"to":"tableau"}}
{"tableau":[["AC"],["3C"]],"stock":["2C"],"foundations":[0,3,3,3]}
unwinnable

to the tableau, one card for two piles: the ace lies on the first
{"max rank":3,"tableau":{"piles":2,"spaces":"none"},"stock":{"size":1,"to":"tableau"}}
{"tableau":[["2C"],["3C"]],"stock":["AC"],"foundations":[0,3,3,3]}
winnable

to the hole: the stock's two bridges the hole and the pile
{"max rank":3,"tableau":{"piles":1,"spaces":"none"},"hole":{"wrap":false},"stock":{"size":1,"to":"hole"}}
{"tableau":[["AC"]],"stock":["2C"],"hole":["AD","2D","3D","AH","2H","3H","AS","2S","3S","3C"]}
winnable

to the hole: the stock's three is no neighbour of the ace
{"max rank":3,"tableau":{"piles":1,"spaces":"none"},"hole":{"wrap":false},"stock":{"size":1,"to":"hole"}}
{"tableau":[["AC"]],"stock":["3C"],"hole":["AD","2D","3D","AH","2H","3H","AS","2S","2C","3S"]}
unwinnable

complete runs: the ace goes on the two, and both go home
{"max rank":2,"tableau":{"piles":2,"build":"any-suit","groups":"run","group build":"same-suit"},"foundations":{"complete runs":true}}
{"tableau":[["2C"],["AC"]],"foundations":[0,2,2,2]}
winnable

complete runs: the ace lies under the two, and no space takes a card
{"max rank":2,"tableau":{"piles":2,"build":"any-suit","groups":"run","group build":"same-suit","spaces":"none"},"foundations":{"complete runs":true}}
{"tableau":[["AC","2C"]],"foundations":[0,2,2,2]}
unwinnable

sequences: the three goes behind the two, and both go to the front
{"max rank":3,"sequences":{}}
{"rows":[["3C","2C",null],["2D","3D"],["2H","3H"],["2S","3S"]]}
winnable

sequences: each gap lies behind a three
{"max rank":3,"sequences":{}}
{"rows":[["3C",null,"2C"],["2D","3D"],["2H","3H"],["2S","3S"]]}
unwinnable"#;

/// Deal 27675 of FreeCell.
const FREECELL: &str = r#"a deal of FreeCell
{"tableau":{"piles":8,"build":"red-black"},"cells":{"count":4}}
{"tableau":[["6D","8S","4C","JC","AS","5S","QC"],["7C","5D","6H","3C","KC","5C","TD"],["KD","KH","6C","TH","9C","2H","8H"],["QD","KS","QS","TC","AH","4S","7H"],["QH","JS","6S","7S","9S","8D"],["7D","3S","4D","5H","AC","JD"],["AD","9H","2C","2S","2D","4H"],["TS","3D","JH","9D","8C","3H"]]}
winnable
nodes 128
narrow 0
moves 109
t5 t0 1
t5 f0"#;

/// A deal of four piles with one cell, which 349 nodes show to be lost.
const LITTLE: &str = r#"a small deal
{"max rank":6,"tableau":{"piles":4,"build":"red-black"},"cells":{"count":1}}
{"tableau":[["3S","6H","2H","5C","4H","4D"],["2C","5H","4S","3C","6S","6C"],["3H","4C","5D","2S","AD","AS"],["AH","2D","6D","3D","5S","AC"]]}
unwinnable
nodes 349
narrow 0"#;

/// Whether the program prints a text that begins so with this cache, the same with either memo, and whether the
/// line of a won game is replayed.
fn solves(alloc: Global, game: &str, cache: u32) -> Result<bool, Fail> {
    let (_, rest) = game.split_once('\n').ok_or("a name")?;
    let (rules, rest) = rest.split_once('\n').ok_or("rules")?;
    let (deal, verdict) = rest.split_once('\n').ok_or("a deal")?;
    let mut shelf = shelf_of(alloc, rules.as_bytes(), deal.as_bytes())?;
    let words = format!(in alloc; "solve rules deal --cache {cache}")?;
    let linked = print(alloc, &mut shelf, words.as_str())?;
    let words = format!(in alloc; "solve rules deal --cache {cache} --memo lru")?;
    let lru = print(alloc, &mut shelf, words.as_str())?;
    if linked.status != Status::Done || linked.text.as_slice() != lru.text.as_slice() {
        return Ok(false);
    }
    if verdict.starts_with("winnable") {
        shelf.add("line", &linked.text)?;
        let replayed = print(alloc, &mut shelf, "replay rules deal line")?;
        if !replayed.text.as_slice().starts_with(b"wins\n") {
            return Ok(false);
        }
    }
    Ok(linked.text.as_slice().starts_with(verdict.as_bytes()))
}

#[test]
fn no_verdict_hangs_on_the_cache_or_the_memo(rt: HostRuntime) -> Result<(), Fail> {
    for game in GAMES.split("\n\n") {
        for cache in [1, 100] {
            assert!(rt; solves(rt.alloc(), game, cache)?, "cache {cache} at {game}");
        }
    }
    assert!(rt; solves(rt.alloc(), FREECELL, 100_000)?);
    assert!(rt; solves(rt.alloc(), LITTLE, 100_000)?);
    Ok(())
}

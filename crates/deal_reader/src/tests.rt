//! Deal files and their one spelling, or their first fault, under six games of two ranks.
use crate::{DealFault, read_position, write_position};
use small_games::rules_of;
use std::alloc::{AllocError, Global};

const PLAIN_GAME: &str = "ranks 2 piles 2 cells 1 reserve 2 stock 3 redeals 2";

// Two decks of aces, face down but for the tops, a stacked reserve, and foundations that are begun.
const TWO_DECKS: &str =
    "decks 2 ranks 1 piles 2 cells 1 reserve 2 stock 3 unlimited top-up stacked";

// The one spelling of the position, or its fault.
fn answer(alloc: Global, game: &str, deal: &str) -> Result<String, AllocError> {
    let Ok(rules) = rules_of(game) else {
        return String::from_str(alloc, "no rules");
    };
    let board = match read_position(alloc, &rules, deal.as_bytes()) {
        Ok(board) => board,
        Err(fault) => return format!(in alloc; "{fault}"),
    };
    let Ok(text) = write_position(alloc, &rules, &board) else {
        return Err(AllocError);
    };
    match String::from_utf8(text) {
        Ok(text) => Ok(text),
        Err(_) => String::from_str(alloc, "no text"),
    }
}

// The first row of the table that is answered otherwise. A row is a deal, an arrow and its answer.
fn first_other<'t>(
    alloc: Global,
    game: &str,
    table: &'t str,
) -> Result<Option<&'t str>, AllocError> {
    for row in table.lines() {
        let Some((deal, due)) = row.split_once(" => ") else {
            return Ok(Some(row));
        };
        let due = if due == "empty" { EMPTY } else { due };
        if answer(alloc, game, deal)?.as_str() != due {
            return Ok(Some(row));
        }
    }
    Ok(None)
}

// What `empty` stands for: the board of the plain game with all cards at home.
const EMPTY: &str =
    r#"{"cells":[null],"face down":[0,0],"foundations":[2,2,2,2],"hole":[],"redeals left":2,"reserve":[null,null],"rows":[],"stock":[],"tableau":[[],[]],"waste":[]}"#;

// Faults of the file, types and cards of each part, and places that are full.
const PLAIN: &str = r#" => not-json
{"cells":[] => not-json
{} x => not-json
[] => not-object
{"cell":[],"tableau":0} => unknown-key
{} => missing-card AC
{"foundations":[2,2,2,2]} => empty
{"foundations":[0],"f\u006fundations":[2,2,2,2]} => empty
{"tableau":"AC"} => wrong-type tableau
{"tableau":["AC"]} => wrong-type tableau
{"tableau":[[null]]} => wrong-type tableau
{"tableau":[["AC","2C"],["AD","1D"]]} => not-a-card tableau 3
{"tableau":[[],["AC"],0,["x"]]} => wrong-type tableau
{"tableau":[["x"],0]} => not-a-card tableau 0
{"face down":[0,null]} => wrong-type face-down
{"face down":[0.0]} => wrong-type face-down
{"face down":[-0]} => wrong-type face-down
{"face down":[18446744073709551616]} => wrong-type face-down
{"cells":{}} => wrong-type cells
{"cells":[1]} => wrong-type cells
{"cells":[null,""]} => not-a-card cells 1
{"reserve":[null,"KX"]} => not-a-card reserve 1
{"reserve":[[]]} => wrong-type reserve
{"stock":[null]} => wrong-type stock
{"stock":["AC","11D"]} => not-a-card stock 1
{"waste":null} => wrong-type waste
{"waste":["ac"]} => not-a-card waste 0
{"redeals left":"0"} => wrong-type redeals-left
{"redeals left":[0]} => wrong-type redeals-left
{"foundations":2} => wrong-type foundations
{"foundations":[1e0]} => wrong-type foundations
{"hole":[0]} => wrong-type hole
{"hole":["AC","C"]} => not-a-card hole 1
{"rows":[null]} => wrong-type rows
{"rows":[[null,"2C"],[null,"2X"]]} => not-a-card rows 3
{"rows":[[0]],"hole":["x"],"stock":[0]} => wrong-type stock
{"cells":[0],"face down":[9],"tableau":[[],[],[]]} => wrong-type cells
{"tableau":[[],[]],"foundations":[2,2,2,2]} => empty
{"tableau":[[],[],[]],"face down":[256]} => place-full tableau
{"face down":[0,0],"foundations":[2,2,2,2]} => empty
{"face down":[0,0,0]} => place-full face-down
{"tableau":[["AC","2C"]],"face down":[1]} => place-full face-down
{"face down":[256],"cells":[null,null]} => place-full face-down
{"face down":[18446744073709551615]} => place-full face-down
{"cells":[null,null],"reserve":[null,null,null]} => place-full cells
{"reserve":[null,null],"foundations":[2,2,2,2]} => empty
{"reserve":[null,null,null]} => place-full reserve
{"stock":["AC","2C"],"waste":["AD"]} => missing-card 2D
{"stock":["AC","2C"],"waste":["AD","2D"]} => place-full stock
{"redeals left":3} => place-full redeals-left
{"redeals left":256} => place-full redeals-left
{"redeals left":258,"foundations":[2,2,2,2]} => place-full redeals-left
{"foundations":[2,2,2,2,0]} => place-full foundations
{"foundations":[2,2,2,3]} => place-full foundations
{"foundations":[2,2,2,258]} => place-full foundations
{"hole":["AC"]} => place-full hole
{"rows":[[]]} => place-full rows
{"foundations":[1,2,2,2]} => missing-card 2C
{"foundations":[1,2,2,2],"cells":["AC"]} => missing-card 2C
{"foundations":[2,2,2,2],"cells":["2D"]} => extra-card 2D
{"foundations":[2,2,2,2],"cells":["KD"]} => extra-card KD"#;

// A stock that deals to the piles has no waste.
const DEALING: &str = r#"{"waste":["AC"]} => place-full waste
{"waste":["AC","2C","AD","2D"]} => place-full stock"#;

// A hole takes cards, and foundations are full.
const HOLE: &str =
    r#"{"tableau":[["AC","2C"],["AD","2D"],["AH","2H"],["2S"]],"hole":["AS"]} => {"cells":[],"face down":[0,0,0,0],"foundations":[],"hole":["AS"],"redeals left":0,"reserve":[],"rows":[],"stock":[],"tableau":[["AC","2C"],["AD","2D"],["AH","2H"],["2S"]],"waste":[]}
{"tableau":[["AC","2C"],["AD","2D"],["AH","2H"],["AS"]],"hole":["AS"]} => missing-card 2S
{"tableau":[["AC","2X"],["AD","2D"],["AH","2H"],["2S"]],"hole":["AS"]} => not-a-card tableau 1
{"tableau":[["AC","2C"],["AD","2D"],["AH","2H"],["2S"]],"hole":["AS"],"waste":["AS"]} => place-full stock
{"foundations":[0]} => place-full foundations"#;

// All but one card in the hole.
const DEEP_HOLE: &str =
    r#"{"hole":["2C","3C","AD","2D","3D","AH","2H","3H","AS","2S","3S"],"tableau":[["AC"]]} => {"cells":[],"face down":[0],"foundations":[],"hole":["2C","3C","AD","2D","3D","AH","2H","3H","AS","2S","3S"],"redeals left":0,"reserve":[],"rows":[],"stock":[],"tableau":[["AC"]],"waste":[]}"#;

// Rows in which each card but the aces has a slot.
const SEQUENCES: &str =
    r#"{"rows":[[null,"2C"],["2D"],["2H"],["2S"]]} => {"cells":[],"face down":[],"foundations":[],"hole":[],"redeals left":0,"reserve":[],"rows":[[null,"2C"],["2D",null],["2H",null],["2S",null]],"stock":[],"tableau":[],"waste":[]}
{"rows":[["AC","2C"],["2D"],["2H"],["2S"]]} => extra-card AC
{"rows":[["AC"],["2D"],["2H"],["2S"]]} => missing-card 2C
{"rows":[[],[],[],[],[]]} => place-full rows
{"rows":[[null,null,null]]} => place-full rows"#;

// Two decks of aces, which lie face down by default, and a stacked reserve.
const DECKS: &str =
    r#"{"tableau":[["AC","AC","AD"],["AD","AH"]],"reserve":[null,"AH"],"foundations":[0,0,0,1,0,0,0,1]} => {"cells":[null],"face down":[2,1],"foundations":[0,0,0,1,0,0,0,1],"hole":[],"redeals left":0,"reserve":["AH"],"rows":[],"stock":[],"tableau":[["AC","AC","AD"],["AD","AH"]],"waste":[]}
{"tableau":[["AC","AC","AD"],["AD","AH"]],"reserve":[null,"AH"],"foundations":[0,0,0,1,0,0,0,1],"face down":[]} => {"cells":[null],"face down":[0,0],"foundations":[0,0,0,1,0,0,0,1],"hole":[],"redeals left":0,"reserve":["AH"],"rows":[],"stock":[],"tableau":[["AC","AC","AD"],["AD","AH"]],"waste":[]}
{"reserve":[null,null,"AH"]} => place-full reserve
{"redeals left":1} => place-full redeals-left
{"tableau":[["AC","AC","AD"]],"face down":[3]} => place-full face-down
{"tableau":[["AC","AC","AD"]],"face down":[2]} => missing-card AD
{"foundations":[1,1,1,1,1,1,1]} => missing-card AS
{"foundations":[1,1,1,1,1,1,1,1],"waste":["AS"]} => extra-card AS"#;

// The middle of a game.
const STARTED: &str =
    r#"{"tableau":[[],["2D"]],"cells":["2C"],"waste":["2S","2H"]} => {"cells":["2C"],"face down":[0,0],"foundations":[1,1,1,1],"hole":[],"redeals left":2,"reserve":[null,null],"rows":[],"stock":[],"tableau":[[],["2D"]],"waste":["2S","2H"]}
{"reserve":[null,"2D"],"stock":["2C","2H"],"redeals left":0,"foundations":[1,1,1,2]} => {"cells":[null],"face down":[0,0],"foundations":[1,1,1,2],"hole":[],"redeals left":0,"reserve":[null,"2D"],"rows":[],"stock":["2C","2H"],"tableau":[[],[]],"waste":[]}
{"foundations":[]} => missing-card AC"#;

#[test]
fn each_deal_has_its_answer(rt: HostRuntime) {
    for (game, table) in [
        (PLAIN_GAME, PLAIN),
        (
            "ranks 2 piles 2 cells 1 reserve 2 stock 3 to-tableau",
            DEALING,
        ),
        ("ranks 2 piles 4 cells 0 reserve 0 stock 0 hole-wraps", HOLE),
        (
            "ranks 3 piles 1 cells 0 reserve 0 stock 0 hole-wraps",
            DEEP_HOLE,
        ),
        ("ranks 2 rows", SEQUENCES),
        (TWO_DECKS, DECKS),
        (
            "ranks 2 piles 2 cells 1 reserve 2 stock 3 redeals 2 started",
            STARTED,
        ),
    ] {
        let other = first_other(rt.alloc(), game, table)
            .ok()
            .expect(&rt, "memory");
        assert_eq!(rt; other, None, "is answered otherwise");
    }
}

// A pile that is higher than a byte counts is never right, whatever is said of its face-down cards.
fn high_pile(alloc: Global, rest: &str) -> Result<String, AllocError> {
    let mut deal = String::from_str(alloc, r#"{"tableau":[["AC""#)?;
    for _ in 0..299 {
        deal.push_str(r#","AC""#)?;
    }
    deal.push_str("]]")?;
    deal.push_str(rest)?;
    Ok(deal)
}

#[test]
fn a_pile_higher_than_a_byte(rt: HostRuntime) {
    for (rest, due) in [
        ("}", "missing-card AD"),
        (r#","face down":[255]}"#, "missing-card AD"),
        (r#","face down":[256]}"#, "place-full face-down"),
    ] {
        let deal = high_pile(rt.alloc(), rest).ok().expect(&rt, "memory");
        let found = answer(rt.alloc(), TWO_DECKS, deal.as_str())
            .ok()
            .expect(&rt, "memory");
        assert_eq!(rt; found.as_str(), due, "at {rest}");
    }
}

#[test]
fn a_file_is_too_long(rt: HostRuntime) {
    let mut file = vec![in rt.alloc(); b' '; 65535].ok().expect(&rt, "memory");
    let rules = rules_of(PLAIN_GAME).ok().expect(&rt, "rules");
    assert!(rt; read_position(rt.alloc(), &rules, &file).err() == Some(DealFault::NotJson));
    file.extend_from_slice(b"{}").ok().expect(&rt, "memory");
    assert!(rt; read_position(rt.alloc(), &rules, &file).err() == Some(DealFault::TooLong));
}

//! Rules files and their one spelling, or their first fault.
use crate::{RulePart, RulesFault, read_rules, write_rules};
use card_piles::{Build, Card, Suit};
use game_model::Rules;
use game_rules::{Face, Goal, Groups, HoleStart, Layout, Redeals, RuleParts, Spaces, Target};
use std::alloc::{AllocError, Global};

const FREE_CELL: &str = r#"{"tableau":{"piles":8,"build":"red-black"},"cells":{"count":4}}"#;

const FREE_CELL_SPELLED: &str =
    r#"{"cells":{"count":4,"filled":0},"decks":1,"foundations":{"base":1,"complete runs":false,"started":false,"take back":false},"max rank":13,"reserve":{"size":0,"stacked":false},"stock":{"draw":1,"redeals":0,"size":0,"to":"waste"},"tableau":{"build":"red-black","face":"all up","group build":"red-black","groups":"one","layout":"even","piles":8,"spaces":"any","wrap":false}}"#;

// Five games beside FreeCell.
const GAMES: &str =
    r#"{"tableau":{"piles":7,"layout":"triangle","face":"top up","build":"red-black","groups":"run","spaces":"king"},"stock":{"size":24,"draw":3,"redeals":"unlimited"}}
{"tableau":{"piles":17,"spaces":"none"},"hole":{"start":"AS"}}
{"tableau":{"piles":7,"spaces":"none"},"hole":{"wrap":false},"stock":{"size":16,"to":"hole"}}
{"decks":2,"tableau":{"piles":10,"face":"top up","build":"any-suit","groups":"run","group build":"same-suit"},"foundations":{"complete runs":true},"stock":{"size":50,"to":"tableau"}}
{"sequences":{}}"#;

// What a file is answered, as it is printed, or `ok`.
fn answer(alloc: Global, text: &[u8]) -> Result<String, AllocError> {
    match read_rules(alloc, text) {
        Ok(_) => String::from_str(alloc, "ok"),
        Err(fault) => format!(in alloc; "{fault}"),
    }
}

// The first row of the table that is answered otherwise. A row is a file, an arrow and its answer.
fn first_other(alloc: Global, table: &str) -> Result<Option<&str>, AllocError> {
    for row in table.lines() {
        let Some((file, due)) = row.split_once(" => ") else {
            return Ok(Some(row));
        };
        if answer(alloc, file.as_bytes())?.as_str() != due {
            return Ok(Some(row));
        }
    }
    Ok(None)
}

// Files as a whole, their numbers, and parts that are no objects.
const TOP: &str = r#" => not-json
[ => not-json
{} x => not-json
[] => not-object
7 => not-object
null => not-object
{} => ok
 {}  => ok
{"deck":1} => unknown-key top
{"decks":1} => ok
{"decks":2} => ok
{"decks":0} => bad-value top
{"decks":3} => bad-value top
{"decks":256} => bad-value top
{"decks":18446744073709551615} => bad-value top
{"decks":18446744073709551616} => wrong-type top
{"decks":1.0} => wrong-type top
{"decks":1e0} => wrong-type top
{"decks":-1} => wrong-type top
{"decks":"1"} => wrong-type top
{"max rank":1} => ok
{"max rank":13} => ok
{"max rank":0} => bad-value top
{"max rank":14} => bad-value top
{"max rank":true} => wrong-type top
{"tableau":[]} => wrong-type tableau
{"foundations":1} => wrong-type foundations
{"hole":null} => wrong-type hole
{"sequences":[]} => wrong-type sequences
{"cells":"x"} => wrong-type cells
{"reserve":2} => wrong-type reserve
{"stock":false} => wrong-type stock
{"decks":9,"decks":2} => ok
{"decks":2,"decks":9} => bad-value top
{"\u0064ecks":9} => bad-value top"#;

// The keys of the tableau: each value, one past each limit, another word, another type.
const TABLEAU: &str = r#"{"tableau":{}} => ok
{"tableau":{"pile":1}} => unknown-key tableau
{"tableau":{"piles":0}} => ok
{"tableau":{"piles":20}} => ok
{"tableau":{"piles":21}} => bad-value tableau
{"tableau":{"piles":256}} => bad-value tableau
{"tableau":{"piles":"8"}} => wrong-type tableau
{"tableau":{"piles":null}} => wrong-type tableau
{"tableau":{"piles":1.0}} => wrong-type tableau
{"tableau":{"layout":"even"}} => ok
{"tableau":{"layout":"triangle"}} => ok
{"tableau":{"layout":"odd"}} => bad-value tableau
{"tableau":{"layout":1}} => wrong-type tableau
{"tableau":{"face":"all up"}} => ok
{"tableau":{"face":"top up"}} => ok
{"tableau":{"face":"up"}} => bad-value tableau
{"tableau":{"face":true}} => wrong-type tableau
{"tableau":{"build":"none"}} => ok
{"tableau":{"build":"any-suit"}} => ok
{"tableau":{"build":"red-black"}} => ok
{"tableau":{"build":"same-suit"}} => ok
{"tableau":{"build":"any suit"}} => bad-value tableau
{"tableau":{"build":0}} => wrong-type tableau
{"tableau":{"wrap":true}} => ok
{"tableau":{"wrap":false}} => ok
{"tableau":{"wrap":1}} => wrong-type tableau
{"tableau":{"wrap":"true"}} => wrong-type tableau
{"tableau":{"groups":"one"}} => ok
{"tableau":{"groups":"run"}} => ok
{"tableau":{"groups":"two"}} => bad-value tableau
{"tableau":{"groups":1}} => wrong-type tableau
{"tableau":{"group build":"none"}} => ok
{"tableau":{"group build":"any-suit"}} => ok
{"tableau":{"group build":"red-black"}} => ok
{"tableau":{"group build":"same-suit"}} => ok
{"tableau":{"group build":"red"}} => bad-value tableau
{"tableau":{"group build":{}}} => wrong-type tableau
{"tableau":{"spaces":"any"}} => ok
{"tableau":{"spaces":"king"}} => ok
{"tableau":{"spaces":"none"}} => ok
{"tableau":{"spaces":"kings"}} => bad-value tableau
{"tableau":{"spaces":false}} => wrong-type tableau"#;

// The keys of the other parts in the same way.
const OTHER_PARTS: &str = r#"{"foundations":{}} => ok
{"foundations":{"bases":1}} => unknown-key foundations
{"foundations":{"base":1}} => ok
{"foundations":{"base":13}} => ok
{"foundations":{"base":0}} => bad-value foundations
{"foundations":{"base":14}} => bad-value foundations
{"foundations":{"base":"1"}} => wrong-type foundations
{"foundations":{"started":true}} => ok
{"foundations":{"started":false}} => ok
{"foundations":{"started":0}} => wrong-type foundations
{"foundations":{"take back":true}} => ok
{"foundations":{"take back":false}} => ok
{"foundations":{"take back":null}} => wrong-type foundations
{"foundations":{"complete runs":false}} => ok
{"foundations":{"complete runs":"no"}} => wrong-type foundations
{"hole":{}} => ok
{"hole":{"top":1}} => unknown-key hole
{"hole":{"wrap":true}} => ok
{"hole":{"wrap":false}} => ok
{"hole":{"wrap":"yes"}} => wrong-type hole
{"hole":{"start":"deal"}} => ok
{"hole":{"start":"AS"}} => ok
{"hole":{"start":"10H"}} => ok
{"hole":{"start":"TH"}} => ok
{"hole":{"start":"KC"}} => ok
{"hole":{"start":"1S"}} => bad-value hole
{"hole":{"start":"as"}} => bad-value hole
{"hole":{"start":""}} => bad-value hole
{"hole":{"start":"deals"}} => bad-value hole
{"hole":{"start":5}} => wrong-type hole
{"sequences":{}} => ok
{"sequences":{"rows":4}} => unknown-key sequences
{"cells":{}} => ok
{"cells":{"number":1}} => unknown-key cells
{"cells":{"count":0}} => ok
{"cells":{"count":16}} => ok
{"cells":{"count":17}} => bad-value cells
{"cells":{"count":4.5}} => wrong-type cells
{"cells":{"filled":0}} => ok
{"cells":{"filled":17}} => bad-value cells
{"cells":{"filled":true}} => wrong-type cells
{"cells":{"count":16,"filled":16}} => ok
{"reserve":{}} => ok
{"reserve":{"piles":1}} => unknown-key reserve
{"reserve":{"size":0}} => ok
{"reserve":{"size":52}} => ok
{"reserve":{"size":53}} => bad-value reserve
{"reserve":{"size":[]}} => wrong-type reserve
{"reserve":{"stacked":true}} => ok
{"reserve":{"stacked":false}} => ok
{"reserve":{"stacked":1}} => wrong-type reserve
{"stock":{}} => ok
{"stock":{"cards":1}} => unknown-key stock
{"stock":{"size":0}} => ok
{"stock":{"size":84}} => ok
{"stock":{"size":85}} => bad-value stock
{"stock":{"size":"24"}} => wrong-type stock
{"stock":{"to":"waste"}} => ok
{"stock":{"to":"pile"}} => bad-value stock
{"stock":{"to":1}} => wrong-type stock
{"stock":{"draw":1}} => ok
{"stock":{"draw":10}} => ok
{"stock":{"draw":0}} => bad-value stock
{"stock":{"draw":11}} => bad-value stock
{"stock":{"draw":null}} => wrong-type stock
{"stock":{"redeals":0}} => ok
{"stock":{"redeals":99}} => ok
{"stock":{"redeals":"unlimited"}} => ok
{"stock":{"redeals":100}} => bad-value stock
{"stock":{"redeals":"many"}} => bad-value stock
{"stock":{"redeals":true}} => wrong-type stock
{"stock":{"redeals":-1}} => wrong-type stock"#;

// Two faults in one file, and the conflicts.
const ORDER: &str = r#"{"x":1,"decks":9} => unknown-key top
{"max rank":"x","decks":9} => bad-value top
{"tableau":1,"max rank":0} => bad-value top
{"stock":1,"cells":{"x":1}} => unknown-key cells
{"tableau":{"spaces":1,"piles":21}} => bad-value tableau
{"tableau":{"x":1,"piles":21}} => unknown-key tableau
{"tableau":{"group build":1,"groups":"x"}} => bad-value tableau
{"hole":{"start":"x"},"foundations":{"base":0}} => bad-value foundations
{"sequences":{"x":1},"hole":{"wrap":1}} => wrong-type hole
{"foundations":{},"hole":{},"stock":{"draw":0}} => bad-value stock
{"foundations":{},"hole":{}} => conflict 1
{"hole":{},"sequences":{}} => conflict 1
{"foundations":{},"sequences":{},"cells":{"count":1}} => conflict 1
{"sequences":{},"tableau":{"piles":1}} => conflict 2
{"sequences":{},"cells":{"count":1}} => conflict 2
{"sequences":{},"reserve":{"size":1}} => conflict 2
{"sequences":{},"stock":{"size":1,"to":"hole"}} => conflict 2
{"stock":{"to":"hole"}} => conflict 3
{"stock":{"to":"tableau","draw":2}} => conflict 4
{"tableau":{"piles":1},"stock":{"to":"tableau","draw":2}} => conflict 5
{"hole":{},"stock":{"to":"hole","redeals":1}} => conflict 5
{"hole":{},"stock":{"to":"hole","redeals":"unlimited"}} => conflict 5
{"tableau":{"piles":1},"stock":{"to":"tableau"}} => ok
{"cells":{"filled":1},"max rank":1,"foundations":{"base":2}} => conflict 6
{"foundations":{"complete runs":true}} => conflict 7
{"tableau":{"groups":"run","build":"red-black"},"foundations":{"complete runs":true}} => conflict 7
{"tableau":{"groups":"run","build":"same-suit"},"foundations":{"complete runs":true}} => ok
{"max rank":1,"tableau":{"groups":"run","build":"any-suit"},"foundations":{"complete runs":true,"base":2}} => conflict 7
{"max rank":3,"foundations":{"base":4}} => conflict 8
{"max rank":4,"foundations":{"base":4}} => ok
{"max rank":3,"hole":{"start":"4C"}} => conflict 9
{"max rank":4,"hole":{"start":"4C"}} => ok"#;

#[test]
fn games_are_read_and_written_again(rt: HostRuntime) {
    let rules = read_rules(rt.alloc(), FREE_CELL.as_bytes())
        .ok()
        .expect(&rt, "rules");
    let text = write_rules(rt.alloc(), &rules).ok().expect(&rt, "memory");
    assert!(rt; text.as_slice() == FREE_CELL_SPELLED.as_bytes());
    for game in GAMES.lines() {
        let rules = read_rules(rt.alloc(), game.as_bytes())
            .ok()
            .expect(&rt, "rules");
        let text = write_rules(rt.alloc(), &rules).ok().expect(&rt, "memory");
        assert!(rt; read_rules(rt.alloc(), &text).ok() == Some(rules), "{game}");
    }
}

// What the file of the next test says, key by key.
fn named() -> RuleParts {
    RuleParts {
        decks: 2,
        max_rank: 12,
        piles: 9,
        layout: Layout::Triangle,
        face: Face::TopUp,
        build: Build::SameSuit,
        wrap: true,
        groups: Groups::Run,
        group_build: Build::AnySuit,
        spaces: Spaces::King,
        goal: Goal::Foundations {
            base: 3,
            started: true,
            take_back: true,
            complete_runs: false,
        },
        cells: 5,
        cells_filled: 2,
        reserve: 7,
        stacked: true,
        stock: 11,
        target: Target::ToWaste,
        draw: 4,
        redeals: Redeals::Times(6),
    }
}

#[test]
fn each_key_gives_its_part(rt: HostRuntime) {
    let file =
        r#"{"decks":2,"max rank":12,"tableau":{"piles":9,"layout":"triangle","face":"top up","build":"same-suit","wrap":true,"groups":"run","group build":"any-suit","spaces":"king"},"foundations":{"base":3,"started":true,"take back":true},"cells":{"count":5,"filled":2},"reserve":{"size":7,"stacked":true},"stock":{"size":11,"draw":4,"redeals":6}}"#;
    let rules = read_rules(rt.alloc(), file.as_bytes())
        .ok()
        .expect(&rt, "rules");
    assert!(rt; Rules::new(named()).ok() == Some(rules));
    let ace = Card::new(Suit::Spades, 1).expect(&rt, "an ace");
    let hole = read_rules(rt.alloc(), br#"{"hole":{"start":"AS"}}"#)
        .ok()
        .expect(&rt, "rules");
    let goal = Goal::Hole {
        wrap: true,
        start: HoleStart::Named(ace),
    };
    assert!(rt; hole.goal() == goal);
}

#[test]
fn each_file_has_its_answer(rt: HostRuntime) {
    for table in [TOP, TABLEAU, OTHER_PARTS, ORDER] {
        let other = first_other(rt.alloc(), table).ok().expect(&rt, "memory");
        assert_eq!(rt; other, None, "is answered otherwise");
    }
}

// An object with a list that nests so deep.
fn nested(alloc: Global, depth: usize) -> Result<Vec<u8>, AllocError> {
    let mut bytes = Vec::from_slice(alloc, br#"{"x":"#)?;
    for _ in 0..depth {
        bytes.push(b'[')?;
    }
    for _ in 0..depth {
        bytes.push(b']')?;
    }
    bytes.push(b'}')?;
    Ok(bytes)
}

#[test]
fn files_are_read_up_to_their_limits(rt: HostRuntime) {
    let mut file = vec![in rt.alloc(); b' '; 65536].ok().expect(&rt, "memory");
    file[0] = b'{';
    file[65535] = b'}';
    assert!(rt; read_rules(rt.alloc(), &file).is_ok());
    file.push(b' ').ok().expect(&rt, "memory");
    assert!(rt; read_rules(rt.alloc(), &file).err() == Some(RulesFault::TooLong));
    let shallow = nested(rt.alloc(), 126).ok().expect(&rt, "memory");
    assert!(rt;
        read_rules(rt.alloc(), &shallow).err() == Some(RulesFault::UnknownKey(RulePart::Top))
    );
    let deep = nested(rt.alloc(), 127).ok().expect(&rt, "memory");
    assert!(rt; read_rules(rt.alloc(), &deep).err() == Some(RulesFault::NotJson));
    let text = b"{\"x\":\"\xff\"}";
    assert!(rt; read_rules(rt.alloc(), text).err() == Some(RulesFault::NotJson));
    let mark = b"\xef\xbb\xbf{}";
    assert!(rt; read_rules(rt.alloc(), mark).err() == Some(RulesFault::NotJson));
}

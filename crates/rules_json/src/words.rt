//! The words of a rules file.
ghost use Rattle.std.specs.Prelude.{◌≡◌, List, ℕ, Option};
ghost use Rattle.rules_json.specs.Words as words;

use card_piles::{Build, card_of};
use game_rules::{Face, Groups, HoleStart, Layout, Spaces, Target};

/// A value that a rules file gives by a word.
pub trait Word: Copy {
    /// the value of a word
    ghost names: { List ℕ → Option Self };

    fn named(text: &str) -> Option<Self>
        ensures { result ≡ names text.now };
}

impl Word for Layout {
    ghost names = { words.layout_named };

    fn named(text: &str) -> Option<Layout> {
        match text {
            "even" => Some(Layout::Even),
            "triangle" => Some(Layout::Triangle),
            _ => None,
        }
    }
}

impl Word for Face {
    ghost names = { words.face_named };

    fn named(text: &str) -> Option<Face> {
        match text {
            "all up" => Some(Face::AllUp),
            "top up" => Some(Face::TopUp),
            _ => None,
        }
    }
}

impl Word for Build {
    ghost names = { words.build_named };

    fn named(text: &str) -> Option<Build> {
        match text {
            "none" => Some(Build::NoBuild),
            "any-suit" => Some(Build::AnySuit),
            "red-black" => Some(Build::RedBlack),
            "same-suit" => Some(Build::SameSuit),
            _ => None,
        }
    }
}

impl Word for Groups {
    ghost names = { words.groups_named };

    fn named(text: &str) -> Option<Groups> {
        match text {
            "one" => Some(Groups::One),
            "run" => Some(Groups::Run),
            _ => None,
        }
    }
}

impl Word for Spaces {
    ghost names = { words.spaces_named };

    fn named(text: &str) -> Option<Spaces> {
        match text {
            "any" => Some(Spaces::Any),
            "king" => Some(Spaces::King),
            "none" => Some(Spaces::NoFill),
            _ => None,
        }
    }
}

impl Word for Target {
    ghost names = { words.target_named };

    fn named(text: &str) -> Option<Target> {
        match text {
            "waste" => Some(Target::ToWaste),
            "tableau" => Some(Target::ToTableau),
            "hole" => Some(Target::ToHole),
            _ => None,
        }
    }
}

impl Word for HoleStart {
    ghost names = { words.start_named };

    fn named(text: &str) -> Option<HoleStart> {
        match text {
            "deal" => Some(HoleStart::Dealt),
            _ => card_of(text.as_bytes()).map(HoleStart::Named),
        }
    }
}

pub fn layout_word(layout: Layout) -> &'static str
    ensures { result.now ≡ words.layout_word layout }
{
    match layout {
        Layout::Even => "even",
        Layout::Triangle => "triangle",
    }
}

pub fn face_word(face: Face) -> &'static str
    ensures { result.now ≡ words.face_word face }
{
    match face {
        Face::AllUp => "all up",
        Face::TopUp => "top up",
    }
}

pub fn build_word(build: Build) -> &'static str
    ensures { result.now ≡ words.build_word build }
{
    match build {
        Build::NoBuild => "none",
        Build::AnySuit => "any-suit",
        Build::RedBlack => "red-black",
        Build::SameSuit => "same-suit",
    }
}

pub fn groups_word(groups: Groups) -> &'static str
    ensures { result.now ≡ words.groups_word groups }
{
    match groups {
        Groups::One => "one",
        Groups::Run => "run",
    }
}

pub fn spaces_word(spaces: Spaces) -> &'static str
    ensures { result.now ≡ words.spaces_word spaces }
{
    match spaces {
        Spaces::Any => "any",
        Spaces::King => "king",
        Spaces::NoFill => "none",
    }
}

pub fn target_word(target: Target) -> &'static str
    ensures { result.now ≡ words.target_word target }
{
    match target {
        Target::ToWaste => "waste",
        Target::ToTableau => "tableau",
        Target::ToHole => "hole",
    }
}

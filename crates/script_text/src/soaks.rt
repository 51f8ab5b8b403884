//! The script of the soak, line by line.
ghost use Rattle.std.specs.Prelude.{◌≡◌, ◌<◌, ◌∷◌, [], true, MatchOption};
ghost use Rattle.group_terms.specs.Names.{is_name};
ghost use Rattle.script_text.specs.Private.Cursors.{lines_left, lines_on};
ghost use Rattle.script_text.specs.Soak.{next_state, number_drawn, soak_line_of, soak_lines, soak_member};
ghost use Rattle.script_text.specs.declared.soaks.Stage.TheVariants as stages;

use crate::lines::Line;
use group_model::MemberName;
use group_terms::Pattern;
use std::marker::Model;

/// How many rounds there are.
const ROUNDS: u8 = 40;

/// How many names join in a round, one after the other.
const JOINS: u8 = 12;

/// How many names leave in a round.
const LEAVES: u8 = 5;

/// How many names there are: the letter `m` and a number below this.
const NAMES: u8 = 80;

/// What the state of the generator is multiplied by at a draw.
const MULTIPLIER: u64 = 6_364_136_223_846_793_005;

/// What is added to it then.
const INCREMENT: u64 = 1_442_695_040_888_963_407;

/// The lines of a soak that are left: a script that is made of a number. Contracts see them as a list. It takes no memory.
#[derive(Drop)]
pub struct Soak {
    cursor: Cursor,
}

impl Model for Soak {
    ghost use Rattle.std.specs.Prelude.{List};
    ghost use Rattle.script_text.specs.Private.Cursors.{lines_left};
    ghost use Rattle.script_text.specs.declared.lines.Line.{Line};

    ghost Value = { List Line };

    ghost view = { λ soak. lines_left soak.cursor };
}

impl Soak {
    /// All lines of the soak of a number.
    #[tactic(auto, unfolding(crate::specs::Soak::soak_lines))]
    pub fn new(number: u64) -> Self
        ensures { result ≡ soak_lines number }
    {
        Soak {
            cursor: Cursor {
                state: number,
                rounds: ROUNDS,
                stage: Stage::Rule,
            },
        }
    }

    /// Takes the first line that is left; `None` exactly where none is.
    pub fn next_line(&mut self) -> Option<Line>
        ensures { MatchOption result (self.old ≡ []) (λ line. self.old ≡ line ∷ self.new) }
    {
        self.cursor.next_line()
    }
}

/// The line of a soak at this place, counted from 0; `None` exactly past the last one. It goes over the lines before it: who wants them all asks a `Soak`.
pub fn soak_line(number: u64, index: u32) -> Option<Line>
    ensures { result ≡ soak_line_of number index }
{
    let mut soak = Soak::new(number);
    for place in 0..index {
        soak.next_line()?;
    }
    soak.next_line()
}

/// Where a soak has come.
#[derive(Drop)]
struct Cursor {
    /// The state of the generator.
    state: u64,
    /// How many rounds come after the present one.
    rounds: u8,
    stage: Stage,
}

/// What comes next.
#[derive(Clone, Copy)]
enum Stage {
    /// The rule.
    Rule,
    /// A round, if there is one more.
    Round,
    /// The joins that are not done, and the end of the block.
    Joins { first: u8, done: u8 },
    /// The leaves that are not done, and the batch.
    Leaves { left: u8 },
    /// The pushes.
    Pushes,
}

impl Cursor {
    fn next_line(&mut self) -> Option<Line>
        ensures { MatchOption result (lines_left self.old ≡ []) (λ line. lines_left self.old ≡ line ∷ lines_left self.new) }
    {
        match self.stage {
            Stage::Rule => Some(self.rule()),
            Stage::Round => self.begin_round(),
            Stage::Joins { first, done } => Some(self.join(first, done)),
            Stage::Leaves { left } => Some(self.leave(left)),
            Stage::Pushes => Some(self.push()),
        }
    }

    fn rule(&mut self) -> Line
        requires { self.old.stage ≡ stages.Rule }
        ensures { lines_left self.old ≡ result ∷ lines_left self.new }
    {
        self.stage = Stage::Round;
        Line::Allow {
            pattern: Pattern::read(b"*").unwrap(),
        }
    }

    fn begin_round(&mut self) -> Option<Line>
        requires { self.old.stage ≡ stages.Round }
        ensures { MatchOption result (lines_left self.old ≡ []) (λ line. lines_left self.old ≡ line ∷ lines_left self.new) }
    {
        if self.rounds == 0 {
            return None;
        }
        self.rounds -= 1;
        let first = draw(&mut self.state);
        self.stage = Stage::Joins { first, done: 0 };
        Some(Line::Together)
    }

    fn join(&mut self, first: u8, done: u8) -> Line
        requires { self.old.stage ≡ stages.Joins first done }
        ensures { lines_left self.old ≡ result ∷ lines_left self.new }
    {
        if done >= JOINS {
            self.stage = Stage::Leaves { left: LEAVES };
            return Line::End;
        }
        self.stage = Stage::Joins {
            first,
            done: done + 1,
        };
        let number = (u16::from(first) + u16::from(done)) % u16::from(NAMES);
        Line::Join {
            member: member_of(number as u8),
        }
    }

    fn leave(&mut self, left: u8) -> Line
        requires { self.old.stage ≡ stages.Leaves left }
        ensures { lines_left self.old ≡ result ∷ lines_left self.new }
    {
        if left == 0 {
            self.stage = Stage::Pushes;
            return Line::Batch;
        }
        self.stage = Stage::Leaves { left: left - 1 };
        let number = draw(&mut self.state);
        Line::Leave {
            member: member_of(number),
        }
    }

    fn push(&mut self) -> Line
        requires { self.old.stage ≡ stages.Pushes }
        ensures { lines_left self.old ≡ result ∷ lines_left self.new }
    {
        self.stage = Stage::Round;
        Line::DeliverAll
    }
}

/// Draws the number of a name.
#[tactic(auto, unfolding(crate::specs::Soak::next_state, crate::specs::Soak::number_drawn))]
fn draw(state: &mut u64) -> u8
    ensures state { state.new ≡ next_state state.old }
    ensures number { result ≡ number_drawn state.new }
    ensures below { result < 80 }
{
    let next = state.wrapping_mul(MULTIPLIER).wrapping_add(INCREMENT);
    *state = next;
    ((next >> 33) % u64::from(NAMES)) as u8
}

/// The name of a number.
fn member_of(number: u8) -> MemberName
    requires { number < 80 }
    ensures { result ≡ soak_member number }
{
    let ones = b'0' + number % 10;
    if number < 10 {
        let text = [b'm', ones];
        return named(&text);
    }
    let text = [b'm', b'0' + number / 10, ones];
    named(&text)
}

/// The name that a text is.
fn named(text: &[u8]) -> MemberName
    requires { is_name text.now ≡ true }
    ensures { result ≡ text.now }
{
    MemberName::read(text).unwrap()
}

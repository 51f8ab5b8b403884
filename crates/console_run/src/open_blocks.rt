//! Blocks of lines that were begun.
ghost use Rattle.std.specs.Prelude.{◌≡◌, ◌⊎◌, ◌≤◌, [], ◌∷◌, ◌++◌, length, false, true, Err, IfErr, MatchOption, OnOk};
ghost use Rattle.console_run.specs.Blocks.{ask_in_block, fits_block, most_asks, names, names_member};
ghost use Rattle.register_workers.specs.Own.{named_by};

use group_model::{List, MemberName, NoMemory};
use register_workers::BlockAsk;
use run_report::Stop;
use script_text::Line;
use std::alloc::Global;

/// How many lines a block has at the most.
const MOST_ASKS: usize = 512;

/// A block that was begun and has not ended: its lines so far, and how many lines of the script came before it.
#[derive(Drop)]
pub(crate) struct OpenBlock {
    pub(crate) asks: List<BlockAsk>,
    pub(crate) before: u32,
}

impl OpenBlock {
    /// A block without lines, which the next line of the script has begun.
    pub(crate) fn begin(alloc: Global, before: u32) -> Self
        ensures asks { result.asks ≡ [] }
        ensures before { result.before ≡ before }
    {
        OpenBlock {
            asks: List::new(alloc),
            before,
        }
    }

    /// Takes one more line. `Line` where it does not fit.
    pub(crate) fn take(&mut self, ask: BlockAsk) -> Result<(), Stop>
        requires { length self.old.asks ≤ most_asks }
        ensures ok { OnOk result (self.new.asks ≡ self.old.asks ++ ask ∷ []) }
        ensures fits { OnOk result (fits_block self.old.asks ask ≡ true) }
        ensures before { self.new.before ≡ self.old.before }
        ensures faulty { result ≡ Err Stop.Line → fits_block self.old.asks ask ≡ false }
        ensures stops { IfErr result (λ stop. (stop ≡ Stop.Line) ⊎ (stop ≡ Stop.Memory)) }
    {
        if !self.fits(&ask) {
            return Err(Stop::Line);
        }
        match self.asks.push(ask) {
            Ok(()) => Ok(()),
            Err(NoMemory) => Err(Stop::Memory),
        }
    }

    /// Whether one more line fits: there is room for it, and it names nobody a second time.
    fn fits(&self, ask: &BlockAsk) -> bool
        ensures { result ≡ fits_block self.now.asks ask.now }
    {
        if self.asks.len() >= MOST_ASKS {
            return false;
        }
        match named_in(ask) {
            Some(member) => !self.names(member),
            None => true,
        }
    }

    /// Whether a line names this member.
    fn names(&self, member: &MemberName) -> bool
        ensures { result ≡ names self.now.asks member.now }
    {
        let asks = self.asks.as_slice();
        asks.iter().any(|ask| is_named_in(ask, member))
    }
}

/// Whether a line names this member.
fn is_named_in(ask: &BlockAsk, member: &MemberName) -> bool
    ensures { result ≡ names_member member.now ask.now }
{
    match named_in(ask) {
        Some(named) => *member == *named,
        None => false,
    }
}

/// Whom a line names.
fn named_in(ask: &BlockAsk) -> Option<&MemberName>
    ensures { MatchOption result (named_by ask.now ≡ []) (λ member. named_by ask.now ≡ member.now ∷ []) }
{
    match ask {
        BlockAsk::Join { member } | BlockAsk::Again { member } | BlockAsk::Leave { member } => {
            Some(member)
        }
        BlockAsk::Batch | BlockAsk::Now => None,
    }
}

/// What a line asks in a block; `None` where no block has such a line.
pub(crate) fn ask_of(line: &Line) -> Option<BlockAsk>
    ensures { result ≡ ask_in_block line.now }
{
    match line {
        Line::Join { member } => Some(BlockAsk::Join { member: *member }),
        Line::Again { member } => Some(BlockAsk::Again { member: *member }),
        Line::Leave { member } => Some(BlockAsk::Leave { member: *member }),
        Line::Batch => Some(BlockAsk::Batch),
        Line::Now => Some(BlockAsk::Now),
        _ => None,
    }
}

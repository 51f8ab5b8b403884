//! Drawing the values of the keys that a batch makes.
ghost use Rattle.std.specs.Prelude.{◌≡◌, ℕ, ◌*◌, ◌≤◌, ◌++◌, length, take, IfOk, OnOk, OnErr};
ghost use Rattle.group_values.specs.Drawing.{blocks_for, node_drawn, nodes_drawn, place_after, traffic_drawn, values_drawn, with_high_bit};
ghost use Rattle.group_values.specs.Values.{ids_of};

use gd_edges::Draws;
use group_terms::{BatchValues, Drawn, List, LkhId, Log, NoMemory, NodeValue, TrafficValue};
use std::alloc::Global;

/// Draws the values of the keys that a batch makes: for each of these positions an IV and a key, and then what the traffic has. `NoMemory` where there
/// is none for them; then nothing is drawn.
pub fn draw_values<R: Draws>(
    alloc: Global,
    draws: &mut R,
    positions: &[LkhId],
) -> Result<BatchValues, NoMemory>
    ensures values { IfOk result (λ values. values ≡ values_drawn (R.block_at draws.old) (R.place_of draws.old) positions.now) }
    ensures positions { IfOk result (λ values. ids_of values.nodes ≡ positions.now) }
    ensures place { OnOk result (R.place_of draws.new ≡ place_after (blocks_for positions.now) (R.place_of draws.old)) }
    ensures blocks { (k : ℕ) → R.block_at draws.new k ≡ R.block_at draws.old k }
    ensures err { OnErr result (draws.new ≡ draws.old) }
{
    let mut nodes = Log::of(List::new(alloc));
    nodes.reserve(positions.len() as u64)?;
    draw_nodes(draws, positions, &mut nodes);
    Ok(BatchValues {
        nodes: nodes.into_list(),
        traffic: draw_traffic(draws),
    })
}

/// Draws for each position.
fn draw_nodes<R: Draws>(draws: &mut R, positions: &[LkhId], nodes: &mut Log<Drawn>)
    requires { length positions.now ≤ nodes.old.spare }
    ensures nodes { nodes.new.items ≡ nodes.old.items ++ nodes_drawn (R.block_at draws.old) (R.place_of draws.old) positions.now }
    ensures place { R.place_of draws.new ≡ place_after (2 * length positions.now) (R.place_of draws.old) }
    ensures blocks { (k : ℕ) → R.block_at draws.new k ≡ R.block_at draws.old k }
{
    for id in positions {
        let value = draw_node(draws);
        nodes.add(Drawn { id: *id, value });
    }
}

/// Draws for a position.
fn draw_node<R: Draws>(draws: &mut R) -> NodeValue
    ensures value { result ≡ node_drawn (R.block_at draws.old) (R.place_of draws.old) }
    ensures place { R.place_of draws.new ≡ place_after 2 (R.place_of draws.old) }
    ensures blocks { (k : ℕ) → R.block_at draws.new k ≡ R.block_at draws.old k }
{
    let iv = draws.draw();
    let key = draws.draw();
    NodeValue { iv, key }
}

/// Draws for the traffic.
fn draw_traffic<R: Draws>(draws: &mut R) -> TrafficValue
    ensures value { result ≡ traffic_drawn (R.block_at draws.old) (R.place_of draws.old) }
    ensures place { R.place_of draws.new ≡ place_after 4 (R.place_of draws.old) }
    ensures blocks { (k : ℕ) → R.block_at draws.new k ≡ R.block_at draws.old k }
{
    let cipher_key = draws.draw();
    let first = draws.draw();
    let second = draws.draw();
    let spi = draws.draw();
    TrafficValue {
        cipher_key,
        integrity_key: joined(&first, &second),
        spi: number_of(&spi),
    }
}

/// Two blocks, one after the other.
pub fn joined(first: &[u8; 16], second: &[u8; 16]) -> [u8; 32]
    ensures { result ≡ first.now ++ second.now }
{
    let mut octets = [0; 32];
    let (front, back) = octets.split_at_mut(16);
    front.copy_from_slice(first);
    back.copy_from_slice(second);
    octets
}

/// The first four octets of a block, with the highest bit set: a number that is not zero.
pub fn number_of(block: &[u8; 16]) -> [u8; 4]
    ensures { result ≡ with_high_bit (take 4 block.now) }
{
    let [first, second, third, fourth, ..] = *block;
    [first | 0x80, second, third, fourth]
}

//! That drawn values are keys, as their types say.
ghost use Rattle.std.specs.List.{All};
ghost use Rattle.gd_cipher.specs.Bytes.{AreBytes};
ghost use Rattle.group_terms.specs.declared.values.Drawn.{Drawn as DrawnValue};
ghost use Rattle.push_msg.specs.Written.{KekFits};
ghost use Rattle.group_pushes.specs.Fits.{ValuesFit};

use gd_wire::prove_are_octets;
use group_terms::{BatchValues, Drawn};
use kd_wire::prove_traffic_fits;

/// The values of a batch fit.
pub fn prove_values_fit(values: &BatchValues)
    ensures { ValuesFit values.now }
{
    prove_nodes_fit(values.nodes.as_slice());
    prove_traffic_fits(&values.traffic);
}

fn prove_nodes_fit(nodes: &[Drawn])
    ensures { All (λ (drawn : DrawnValue). KekFits drawn.value) nodes.now }
{
    for node in nodes {
        prove_node_fits(node);
    }
}

fn prove_node_fits(node: &Drawn)
    ensures { KekFits node.now.value }
{
    prove_are_bytes(&node.value.iv);
    prove_are_bytes(&node.value.key);
}

/// An array of 16 octets has 16.
fn prove_are_bytes(octets: &[u8; 16])
    ensures { AreBytes 16 octets.now }
{
    prove_are_octets(octets);
}

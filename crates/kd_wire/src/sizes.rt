//! How long a body will be, before it is written.
ghost use Rattle.std.specs.Prelude.{◌≡◌, ◌*◌, ◌≤◌, ℕ, List, length};
ghost use Rattle.group_terms.specs.Octets.{rekey_spi_octets};
ghost use Rattle.kd_wire.specs.Texts.{traffic_kd, update_kd, reply_kd};
ghost use Rattle.kd_wire.specs.Widths.{update_octets, update_kd_octets, reply_kd_octets};

use crate::fits::{prove_path_keys_fit, prove_spi_fits, prove_traffic_fits};
use crate::widths::{
    DOWNLOAD_HEAD, LKH_HEAD_OCTETS, LKH_KEY_OCTETS, TRAFFIC_OCTETS, UPDATE_OCTETS,
};
use group_terms::{Keyed, TrafficValue};

/// How many octets the body has that gives this traffic key alone.
pub fn traffic_kd_size(traffic: &TrafficValue) -> usize
    ensures { result ≡ length (traffic_kd traffic.now) }
{
    prove_traffic_fits(traffic);
    4 + TRAFFIC_OCTETS
}

/// How many octets the body has that gives keys by update arrays of one key each.
pub fn update_kd_size(arrays: usize) -> usize
    requires { update_octets * arrays ≤ 65000 }
    ensures octets { result ≡ update_kd_octets arrays }
    ensures size { (spi text : List ℕ) → length spi ≡ rekey_spi_octets → length text ≡ update_octets * arrays →
        result ≡ length (update_kd spi text) }
{
    4 + LKH_HEAD_OCTETS + UPDATE_OCTETS * arrays
}

/// How many octets the body has for a member that registers.
pub fn reply_kd_size(keyed: &Keyed) -> usize
    ensures octets { result ≡ reply_kd_octets (length keyed.now.path) }
    ensures size { result ≡ length (reply_kd keyed.now) }
{
    let keys = keyed.path.keys();
    prove_path_keys_fit(keys);
    prove_spi_fits(&keyed.spi);
    prove_traffic_fits(&keyed.traffic);
    size_with(keys.len())
}

/// How many octets that body has with `keys` keys.
fn size_with(keys: usize) -> usize
    requires { keys ≤ 16 }
    ensures { result ≡ reply_kd_octets keys }
{
    4 + TRAFFIC_OCTETS + LKH_HEAD_OCTETS + DOWNLOAD_HEAD + LKH_KEY_OCTETS * keys
}

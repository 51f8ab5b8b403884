//! What the messages of the server say.
ghost use Rattle.std.specs.Prelude.{◌≡◌, IsSome};
ghost use Rattle.gcks_core.specs.Stands.{Stands};
ghost use Rattle.group_model.specs.Servers.{Server};
ghost use Rattle.server_steps.specs.Pulls.{present_policy, spi_or_zeros};

use gcks_core::Core;
use gd_disk::Disk;
use gd_edges::{Draws, Signer};
use group_terms::TrafficValue;
use sa_wire::{KekPolicy, SaPolicy, TekPolicy};

/// What a second message says of a group: the SPI of its pushes and how they are signed, and the SPI of its present traffic key (RFC 6407 sections 5.3 and 5.5).
pub(crate) fn policy_of<D: Disk, G: Signer, R: Draws>(core: &Core<D, G, R>) -> SaPolicy
    ensures policy { (server : Server) → Stands R.Draws core.now server →
        result ≡ present_policy core.now.head.spi (G.kind_of core.now.signer) server.list }
    ensures kek { IsSome result.kek }
    ensures tek { IsSome result.tek }
{
    SaPolicy {
        kek: Some(KekPolicy {
            spi: core.spi(),
            sign: core.sign_kind(),
        }),
        tek: Some(TekPolicy {
            spi: spi_or_zeros(&core.traffic()),
        }),
    }
}

/// The SPI of a traffic key; zeros where there is none yet.
fn spi_or_zeros(traffic: &Option<TrafficValue>) -> [u8; 4]
    ensures { result ≡ spi_or_zeros traffic.now }
{
    match traffic {
        Some(traffic) => traffic.spi,
        None => [0; 4],
    }
}

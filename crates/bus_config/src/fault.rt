// Why a bus file is refused.

ghost use Rattle.bus_config.specs.declared.fault.ConfigFault.TheVariants.{Memory as NoMemory};
ghost use Rattle.std.specs.Prelude.{◌≡◌};

use std::alloc::AllocFailed;
use thiserror::Error;

/// Why a bus file is refused. Nodes and routes count from 1. If several causes stand together, the first is given:
/// `Toml`, then `Root`, then for each node `Node` and after it `Route` for each of its routes, and at last `Sender`.
#[derive(Clone, Copy, Debug, PartialEq, Eq, Error)]
pub enum ConfigFault {
    /// The bytes aren't UTF-8, or no TOML document.
    #[error("toml")]
    Toml,
    /// The root table has another key than `store`, `version` and `node`, or one of these isn't of its form.
    #[error("root")]
    Root,
    /// The node with this number has a key other than `name`, `uid` and `route`. Or one of these isn't of its form, or
    /// an earlier node has its name.
    #[error("node {0}")]
    Node(u8),
    /// The route with the second number, of the node with the first, has a key other than `id`, `direction`, `slot`,
    /// `reserve`, `window` and `start`. Or one of these isn't of its form, or it sends and has a `window`, or an
    /// earlier route of the node has its Data ID.
    #[error("route {0} {1}")]
    Route(u8, u16),
    /// The first Data ID in order that is sent by a route and by an earlier one.
    #[error("sender {0:04x}")]
    Sender(u16),
    /// There was no memory.
    #[error("out of memory")]
    Memory,
}

impl<T: Drop> From<AllocFailed<T>> for ConfigFault {
    ghost from_gives = { λ _ fault. fault ≡ NoMemory };

    fn from(_error: AllocFailed<T>) -> ConfigFault {
        ConfigFault::Memory
    }
}

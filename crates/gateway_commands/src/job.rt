//! What a gateway is to do, once all is read.
use bus_config::BusConfig;
use bus_script::Event;

/// A script over a gateway.
#[derive(Drop)]
pub struct GatewayJob {
    /// The bus, of one node.
    pub bus: BusConfig,
    /// The pairs of Data IDs: what arrives under the first of one departs under the second.
    pub pairs: Vec<(u16, u16)>,
    /// The events of the script.
    pub events: Vec<Event>,
}

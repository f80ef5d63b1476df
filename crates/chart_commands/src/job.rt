//! What is to be drawn, once all is read.
use bus_config::BusConfig;
use bus_script::Event;

/// A script over a bus.
#[derive(Drop)]
pub struct ChartJob {
    /// The bus.
    pub bus: BusConfig,
    /// Its events.
    pub events: Vec<Event>,
}

//! The program's one command.
ghost use Rattle.std.specs.Prelude.{◌≡◌, map as each, string_bytes, List, ℕ, Some};
ghost use Rattle.bus_port.specs.Source.{SourceState};
ghost use Rattle.bus_port.specs.Sink.{SinkState};
ghost use Rattle.program_edge.specs.Told.{AppendedWell};
ghost use Rattle.secoc_node.specs.Words.{IsImage};
ghost use Rattle.endpoint_commands.specs.Promises.{DoesEndpoint, AnswersAll};
ghost use Rattle.endpoint_commands.specs.Table.{RunsEndpoint};
ghost use Rattle.endpoint_commands.specs.Rows.{AsksForm, does_boot};
ghost use Rattle.endpoint_commands.specs.States.{IsFreshEndpoint};
ghost use Rattle.endpoint_commands.specs.Steps.{PreparesEndpoint, IsWholeEndpoint, EndsOverPorts};

use crate::boot::image_from;
use crate::endpoint::{Endpoint, Room};
use crate::inputs::rules_from;
use crate::laws::endpoints_are_runs;
use crate::port::EndpointPort;
use crate::rules::FrameRule;
use basics::Bytes;
use bus_config::BusConfig;
use bus_port::{PortFailed, Sink, Source};
use bus_programs::{bus_from, check_bus, node_routes};
use bus_world::{Start, close_nodes, open_nodes, start_refusal};
use cell_store::CutCells;
use cut_disk::CutDisk;
use kept_starts::{keep_refusal, look_first};
use line_stream::{StreamFault, stream_lines};
use program_edge::{InputFault, Refusal, WRITE_FAULT, tell_refusal};
use std::alloc::{AllocError, Global};

const USAGE: &str = "usage: endpoint B MAP LOG DISK [IMAGE]\n";

/// What an endpoint is to do, once all but the log is read.
#[derive(Drop)]
pub struct EndpointJob {
    /// The bus, of one node.
    pub bus: BusConfig,
    /// The rules of the map.
    pub rules: Vec<FrameRule>,
    /// Room for the lines of the log and for their answers.
    pub room: Room,
    /// The image with which the node boots first.
    pub image: Option<Bytes>,
}

/// The form of the arguments.
#[derive(Clone, Copy, Debug, PartialEq, Eq)]
pub enum EndpointForm {
    /// `B MAP LOG DISK`.
    Plain,
    /// `B MAP LOG DISK IMAGE`: the node boots with the image first.
    Boots,
}

/// The form of the arguments; none if they are malformed.
pub fn form_of(words: &[String]) -> Option<EndpointForm>
    ensures { AsksForm (each string_bytes words.now) result }
{
    match words.len() {
        4 => Some(EndpointForm::Plain),
        5 => Some(EndpointForm::Boots),
        _ => None,
    }
}

/// Whether arguments of this form name an image.
fn boots(form: EndpointForm) -> bool
    ensures { result ≡ does_boot form }
{
    match form {
        EndpointForm::Plain => false,
        EndpointForm::Boots => true,
    }
}

/// Runs a node between the channels of a log, and gives the status that the program ends with. The arguments name the
/// bus file, the map, the log, the disk and an image, if the node is to boot with one first. The node goes on over the
/// first disk, if its store stands there; an unused disk, all of whose bytes are zeros, is formatted, and any other is
/// refused. Each complete line of the log is answered on `sink` before the log is read again. The usage line,
/// refusals and faults are told on `errors`, and nowhere else.
///
/// The statuses are looked for in this order: 2; 5, 8 and 3 of the bus file; 5, 8 and 4 of the map; 5, 8 and 3 of the
/// image; 7, 9 and 10. After that it is 0 if the log ended, 5 if it failed, 8 if it has 2^64 - 1 bytes, and 11 if the
/// disk failed at a line. A sink that fails makes the status 6, and nothing more is asked of the log.
pub fn run_endpoint<S: Source, M: Source, T: Source, I: Source, K: Sink, E: Sink, D: CutDisk>(
    alloc: Global,
    words: &[String],
    config: &mut S,
    map: &mut M,
    log: &mut T,
    image: &mut I,
    sink: &mut K,
    errors: &mut E,
    disks: &mut Vec<D>,
) -> u8
    // `RunsEndpoint` of specs/Table.antt has a member for each promise.
    ensures { RunsEndpoint (disks.new ≡ disks.old)
        (record {
          words = each string_bytes words.now;
          config = record { before = S.state config.old; after = S.state config.new };
          map = record { before = M.state map.old; after = M.state map.new };
          image = record { before = I.state image.old; after = I.state image.new };
          log = record { before = T.state log.old; after = T.state log.new };
        })
        (record { before = each D.state disks.old.items; after = each D.state disks.new.items })
        (record {
          output = record { before = K.state sink.old; after = K.state sink.new };
          errors = record { before = E.state errors.old; after = E.state errors.new };
          status = result;
        }) }
{
    match prepare(alloc, form_of(words), config, map, image) {
        Ok(job) => do_endpoint(alloc, job, log, sink, errors, disks),
        Err(refusal) => tell_refusal(errors, &refusal),
    }
}

/// The form of the arguments, and all inputs except the log.
pub(crate) fn prepare<S: Source, M: Source, I: Source>(
    alloc: Global,
    form: Option<EndpointForm>,
    config: &mut S,
    map: &mut M,
    image: &mut I,
) -> Result<EndpointJob, Refusal>
    ensures { (words : List (List ℕ)) (log : SourceState) → AsksForm words form → PreparesEndpoint
        (record {
          words = words;
          config = record { before = S.state config.old; after = S.state config.new };
          map = record { before = M.state map.old; after = M.state map.new };
          image = record { before = I.state image.old; after = I.state image.new };
          log = record { before = log; after = log };
        })
        result }
{
    match form {
        Some(form) => prepare_inputs(alloc, form, config, map, image),
        None => Err(Refusal::fixed(2, USAGE)),
    }
}

/// All inputs except the log, of arguments of this form.
fn prepare_inputs<S: Source, M: Source, I: Source>(
    alloc: Global,
    form: EndpointForm,
    config: &mut S,
    map: &mut M,
    image: &mut I,
) -> Result<EndpointJob, Refusal>
    ensures { (words : List (List ℕ)) (log : SourceState) → AsksForm words (Some form) → PreparesEndpoint
        (record {
          words = words;
          config = record { before = S.state config.old; after = S.state config.new };
          map = record { before = M.state map.old; after = M.state map.new };
          image = record { before = I.state image.old; after = I.state image.new };
          log = record { before = log; after = log };
        })
        result }
{
    let bus = bus_from(alloc, config)?;
    check_bus(&bus)?;
    let rules = rules_from(alloc, node_routes(&bus), map)?;
    let image = image_from(alloc, boots(form), image)?;
    match Room::of(alloc, rules.as_slice()) {
        Ok(room) => Ok(EndpointJob {
            bus,
            rules,
            room,
            image,
        }),
        Err(AllocError) => Err(Refusal::no_memory()),
    }
}

/// Looks at the first disk, opens the node over it, and lets it answer the log. The disk is handed back.
pub(crate) fn do_endpoint<T: Source, K: Sink, E: Sink, D: CutDisk>(
    alloc: Global,
    job: EndpointJob,
    log: &mut T,
    sink: &mut K,
    errors: &mut E,
    disks: &mut Vec<D>,
) -> u8
    requires { IsWholeEndpoint job }
    ensures { DoesEndpoint (disks.new ≡ disks.old) job.bus job.rules.items job.image
        (record { before = T.state log.old; after = T.state log.new })
        (record { before = each D.state disks.old.items; after = each D.state disks.new.items })
        (record {
          output = record { before = K.state sink.old; after = K.state sink.new };
          errors = record { before = E.state errors.old; after = E.state errors.new };
          status = result;
        }) }
{
    endpoints_are_runs();
    let EndpointJob {
        bus,
        rules,
        room,
        image,
    } = job;
    if let Err(fault) = look_first(alloc, &bus, disks) {
        return tell_refusal(errors, &keep_refusal(fault));
    }
    let mut nodes = match open_nodes(alloc, &bus, disks, Start::Attach) {
        Ok(nodes) => nodes,
        Err(fault) => return tell_refusal(errors, &start_refusal(&fault)),
    };
    let node = nodes.take_last();
    let mut endpoint = Endpoint::new(node, rules, room);
    let status = answer_all(&mut endpoint, image, log, sink, errors);
    nodes.push_reserved(endpoint.release());
    close_nodes(nodes, disks);
    status
}

/// Boots the node, if it has an image, and answers the log.
fn answer_all<C: CutCells, T: Source, K: Sink, E: Sink>(
    endpoint: &mut Endpoint<C>,
    image: Option<Bytes>,
    log: &mut T,
    sink: &mut K,
    errors: &mut E,
) -> u8
    requires image { (bytes : List ℕ) → image ≡ Some bytes → IsImage bytes }
    requires before { IsFreshEndpoint endpoint.old }
    ensures { AnswersAll image endpoint.old.rules endpoint.old.node
        (record { before = T.state log.old; after = T.state log.new })
        (record {
          output = record { before = K.state sink.old; after = K.state sink.new };
          errors = record { before = E.state errors.old; after = E.state errors.new };
          status = result;
        }) endpoint.new.node }
{
    match image {
        Some(image) => boot_and_answer(endpoint, &image, log, sink, errors),
        None => answer_log(endpoint, log, sink, errors),
    }
}

/// Boots the node with an image, and answers the log.
fn boot_and_answer<C: CutCells, T: Source, K: Sink, E: Sink>(
    endpoint: &mut Endpoint<C>,
    image: &Bytes,
    log: &mut T,
    sink: &mut K,
    errors: &mut E,
) -> u8
    requires image { IsImage image.now }
    requires before { IsFreshEndpoint endpoint.old }
    ensures { AnswersAll (Some image.now) endpoint.old.rules endpoint.old.node
        (record { before = T.state log.old; after = T.state log.new })
        (record {
          output = record { before = K.state sink.old; after = K.state sink.new };
          errors = record { before = E.state errors.old; after = E.state errors.new };
          status = result;
        }) endpoint.new.node }
{
    match endpoint.boot(image.bytes(), sink) {
        Ok(()) => answer_log(endpoint, log, sink, errors),
        Err(PortFailed) => WRITE_FAULT,
    }
}

/// Answers a log to its end.
fn answer_log<C: CutCells, T: Source, K: Sink, E: Sink>(
    endpoint: &mut Endpoint<C>,
    log: &mut T,
    sink: &mut K,
    errors: &mut E,
) -> u8
    requires { IsFreshEndpoint endpoint.old }
    ensures rules { endpoint.new.rules ≡ endpoint.old.rules }
    ensures ends { (opening : List ℕ) (start : SinkState) → AppendedWell start (K.state sink.old) opening
        → EndsOverPorts (record {
          log = record { before = T.state log.old; after = T.state log.new };
          output = record { before = start; after = K.state sink.new };
          errors = record { before = E.state errors.old; after = E.state errors.new };
        }) opening endpoint.new endpoint.old.node result }
{
    let mut port = EndpointPort { endpoint, sink };
    match stream_lines(log, &mut port) {
        Ok(status) => status,
        Err(StreamFault::ReadFault) => {
            tell_refusal(errors, &Refusal::from(InputFault::ReadFault))
        }
        Err(StreamFault::TooLong) => tell_refusal(errors, &Refusal::from(InputFault::TooLong)),
    }
}

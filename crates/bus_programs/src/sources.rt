//! Sources that are not opened.
ghost use Rattle.std.specs.Prelude.{◌≡◌};
ghost use Rattle.program_edge.specs.NamedSources.{word_source, missing_source};

use bus_port::Source;
use program_edge::{MissingSource, WordSource};

/// This status, and both sources missing, of which nothing was opened.
pub fn unopened<S: Source + Drop, I: Source + Drop>(
    status: u8,
) -> (u8, WordSource<S, I>, WordSource<S, I>)
    ensures status { result.0 ≡ status }
    ensures config { word_source S.state I.state result.1 ≡ missing_source 0 }
    ensures script { word_source S.state I.state result.2 ≡ missing_source 0 }
{
    let config = WordSource::Missing(MissingSource::new());
    let script = WordSource::Missing(MissingSource::new());
    (status, config, script)
}

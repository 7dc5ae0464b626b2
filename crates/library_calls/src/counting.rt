//! How many messages a library's calls gave.

ghost use Rattle.std.specs.Prelude.{◌≡◌};
ghost use Rattle.library_calls.specs.Reads.{gives_message, reads_of};

use library_api::Event;
use run_report::Call;

/// How many messages these calls gave: those of its polls that answered `Message`.
pub fn reads_of(calls: &[Call]) -> u64
    ensures { result ≡ reads_of calls.now }
{
    calls.iter().filter(|call| gives_message(call)).count() as u64
}

// Whether a call gave a message.
fn gives_message(call: &Call) -> bool
    ensures { result ≡ gives_message call.now }
{
    matches!(
        call,
        Call::Poll {
            event: Event::Message { .. }
        }
    )
}

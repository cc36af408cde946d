// Closing outputs.
ghost use Rattle.std.specs.Prelude.{◌≡◌, ◌⊎◌, ℕ, true, false, Some, IfSome, slice_get};
ghost use Rattle.edge_io.specs.Faults.{Rose};
ghost use Rattle.edge_io.specs.Files.{Files, IsFile};
ghost use Rattle.folder_reader.specs.Hosts.{Goes};
ghost use Rattle.serving.specs.Ends.{AreClosed, AreClosedOrKept, IsClosed, AreApart};

use edge_io::host::Host;

/// Closes all of the sinks in order, though one fails; whether none did. No two of them have one label.
pub fn close_all<H: Host>(host: &mut H, sinks: Vec<H::Out>) -> bool
    requires { AreApart H.Out.written H.Out.label sinks.items }
    ensures closed { result ≡ true → IfSome (H.files host.old) (λ m. (after : Files) × (H.files host.new ≡ Some after) × AreClosed H.Out.written H.Out.label m sinks.items after) }
    ensures kept { IfSome (H.files host.old) (λ m. (after : Files) × (H.files host.new ≡ Some after) × AreClosedOrKept H.Out.written H.Out.label m sinks.items after) }
    ensures fault { result ≡ false → Rose (H.faults host.old) (H.faults host.new) }
    ensures sure { H.steady host.old ≡ true → IfSome (H.files host.old) (λ m. ((k : ℕ) (s : H.Out) → slice_get sinks.items k ≡ Some s → IsFile m (H.Out.label s)) → result ≡ true) }
    ensures said { H.said host.new ≡ H.said host.old }
    ensures goes { Goes H.faults H.steady H.source_steady H.sink_steady host.old host.new }
{
    let mut all = true;
    for sink in sinks {
        all = close_one(host, sink, all);
    }
    all
}

// Closes a sink; whether this succeeded and all that was done before did.
fn close_one<H: Host>(host: &mut H, sink: H::Out, all: bool) -> bool
    ensures before { result ≡ true → all ≡ true }
    ensures closed { result ≡ true → IsClosed H.Out.written H.Out.label sink (H.files host.old) (H.files host.new) }
    ensures kept { IsClosed H.Out.written H.Out.label sink (H.files host.old) (H.files host.new) ⊎ (H.files host.new ≡ H.files host.old) }
    ensures fault { result ≡ false → all ≡ true → Rose (H.faults host.old) (H.faults host.new) }
    ensures sure { H.steady host.old ≡ true → all ≡ true → IfSome (H.files host.old) (λ m. IsFile m (H.Out.label sink) → result ≡ true) }
    ensures said { H.said host.new ≡ H.said host.old }
    ensures goes { Goes H.faults H.steady H.source_steady H.sink_steady host.old host.new }
{
    match host.close(sink) {
        Ok(()) => all,
        Err(_) => false,
    }
}

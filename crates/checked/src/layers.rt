// Layers: an output asks its operations, and an operation the output that it reads.
ghost use Rattle.std.specs.Prelude.{◌≡◌, ◌+◌, ◌≤◌, length, IfSome};
ghost use Rattle.tables.specs.Layers.{greatest, layer, layer_in};
ghost use Rattle.tables.specs.Asking.{asked_stream};
ghost use Rattle.tables.specs.Rules.{asks, reads};
ghost use Rattle.checked.specs.Views as views;

use crate::parts::Parts;
use tables::op::Op;

// The stream that an operation reads by now, past or held.
fn asked_stream(op: Op) -> Option<u8>
    ensures { result ≡ asked_stream op }
{
    match op {
        Op::Now { stream } | Op::Past { stream, .. } | Op::Held { stream, .. } => Some(stream),
        _ => None,
    }
}

impl Parts {
    // The layer of an output: one more than the greatest among its operations. None where a chain of reads from it is
    // as long as the depth.
    #[cycle(operation_layer_output_layer)]
    fn output_layer(&self, output: usize, depth: u8) -> Option<u8>
        requires { depth ≤ 16 }
        ensures value { result ≡ layer (reads (views.said self.now)) depth output }
        ensures low { IfSome result (λ n. n ≤ depth) }
    {
        if depth == 0 {
            return None;
        }
        let Some(asking) = self.outputs.as_slice().get(output) else {
            return Some(1);
        };
        let mut top = 0;
        for op in &asking.program.ops {
            top = top.max(self.operation_layer(output, *op, depth - 1)?);
        }
        Some(top + 1)
    }

    // The layer of the output that an operation of an output reads; 0 where it reads an input, its own output, or none.
    #[cycle(operation_layer_output_layer)]
    fn operation_layer(&self, output: usize, op: Op, depth: u8) -> Option<u8>
        requires { depth ≤ 16 }
        ensures value { result ≡ greatest (layer (reads (views.said self.now)) depth) (asks (length (views.said self.now).inputs) output op) 0 }
        ensures low { IfSome result (λ n. n ≤ depth) }
    {
        let Some(stream) = asked_stream(op) else {
            return Some(0);
        };
        let Some(asked) = (stream as usize).checked_sub(self.inputs.len()) else {
            return Some(0);
        };
        if asked == output {
            return Some(0);
        }
        self.output_layer(asked, depth)
    }

    // The layer of an output; none where reads go in a circle.
    pub(crate) fn layer_of(&self, output: usize) -> Option<u8>
        ensures { result ≡ layer_in (views.said self.now) output }
    {
        self.output_layer(output, 16)
    }
}

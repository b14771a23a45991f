//! The inputs by which a room is judged.
ghost use Rattle.std.specs.Prelude.{◌≡◌, ◌++◌, [], IfOk, OnOk};
ghost use Rattle.std.specs.List.{flat_map, list_any};
ghost use Rattle.serde_json.specs.View.{view};
ghost use Rattle.json_lines.specs.Values.{numbers_data};
ghost use Rattle.view_why.specs.Json.{no_input_data};
ghost use Rattle.view_why.specs.Reported.{given_inputs};
ghost use Rattle.view_why.specs.Words.{inputs_words, process_words};

use crate::reasons::write_of_process;
use io_text::Text;
use room_spec::Spec;
use serde_json::{Value, json};
use std::alloc::{AllocError, Global};
use transcript::Event;

/// The inputs by which the task of a room is judged: in a reduction the simulators' own.
pub(crate) fn task_inputs(alloc: Global, spec: &Spec) -> Result<Vec<u32>, AllocError>
    ensures { IfOk result (λ inputs. inputs.items ≡ given_inputs spec.now) }
{
    if spec.is_reduction() {
        return own_inputs(alloc, spec);
    }
    process_inputs(alloc, spec)
}

/// The inputs of the processes.
fn process_inputs(alloc: Global, spec: &Spec) -> Result<Vec<u32>, AllocError>
    ensures { IfOk result (λ inputs. inputs.items ≡ spec.now.inputs) }
{
    let mut inputs = Vec::new(alloc);
    for j in 0..spec.n() {
        inputs.push(spec.input(j))?;
    }
    Ok(inputs)
}

/// The simulators' own inputs; none in an ordinary room.
#[tactic(auto, using(crate::proofs::Owning::taken, crate::proofs::Owning::all_taken, crate::proofs::Owning::all_of_limits))]
pub(crate) fn own_inputs(alloc: Global, spec: &Spec) -> Result<Vec<u32>, AllocError>
    ensures { IfOk result (λ inputs. inputs.items ≡ spec.now.own) }
{
    let _ = spec.shape(); // for the proof: the room is within its limits
    let mut inputs = Vec::new(alloc);
    for i in 0..spec.m() {
        let Some(input) = spec.own(i) else {
            return Ok(inputs);
        };
        inputs.push(input)?;
    }
    Ok(inputs)
}

/// Writes that an event may come from none of the simulators' own inputs.
pub(crate) fn write_no_input(
    output: &mut Text,
    own: &[u32],
    event: &Event,
) -> Result<(), AllocError>
    ensures { OnOk result (output.new ≡ output.old ++ inputs_words own.now event.now) }
{
    output.put(b"from none of the inputs")?;
    write_inputs(output, own)?;
    let owner = u64::from(event.process());
    write_of_process(output, b" may process", owner, b" do this here")
}

fn write_inputs(output: &mut Text, own: &[u32]) -> Result<(), AllocError>
    ensures { OnOk result (output.new ≡ output.old ++ flat_map (λ input. process_words [] input []) own.now) }
{
    for input in own {
        write_of_process(output, b"", u64::from(*input), b"")?;
    }
    Ok(())
}

/// That an event may come from none of the simulators' own inputs.
pub(crate) fn no_input_value(alloc: Global, own: &[u32]) -> Result<Value, AllocError>
    ensures { IfOk result (λ value. view value ≡ no_input_data own.now) }
{
    let inputs = inputs_value(alloc, own)?;
    json!(in alloc; {"inputs": inputs, "kind": "inputs"})
}

fn inputs_value(alloc: Global, own: &[u32]) -> Result<Value, AllocError>
    ensures { IfOk result (λ value. view value ≡ numbers_data own.now) }
{
    let mut values = Vec::new(alloc);
    for input in own {
        values.push(Value::from(*input))?;
    }
    Ok(Value::Array(values))
}

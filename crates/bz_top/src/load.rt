//! The command `load`.
ghost use Rattle.std.specs.Prelude.{◌≡◌, ◌≢◌, ◌≤◌, ℕ, List, None, codes};
ghost use Rattle.bz_image.specs.declared.fault.ImageFault.TheVariants.{Memory as WantOfMemory};
ghost use Rattle.bz_layout.specs.declared.limits.TheConstants.{MIN_MARKS, MAX_MARKS};
ghost use Rattle.bz_cli.specs.CommandLine.{IsCommandLine};
ghost use Rattle.bz_cli.specs.declared.command.Command.TheVariants.{Load};
ghost use Rattle.bz_top.specs.Answers.{IsAnsweredInWorld};
ghost use Rattle.bz_top.specs.Faults.{fault_line, image_text, shape_text};
ghost use Rattle.bz_top.specs.Parts.{sunk, Says, SaysOrWants};

use crate::answer::{WorldAnswer, run_source};
use crate::faults::{image_line, shape_line};
use crate::program::{WorldEnd, config_for, no_memory, refuse, written};
use bz_cli::CommandLine;
use bz_content::CheckError;
use bz_image::{FetchFault, ImageFault, fetch_image};
use bz_io::{Sink, Source};
use bz_judge::check;
use bz_oom::Memory;
use bz_tree::ShapeFault;
use std::alloc::Global;

// Answers bytes that are no image, or want of memory for them.
fn refuse_image<K: Sink>(fault: ImageFault, sink: &mut K) -> WorldEnd
    ensures lab { result.lab ≡ None }
    ensures memory { fault ≡ WantOfMemory → Says
        (sunk (K.held sink.old) (K.held sink.new) (K.faults sink.old) (K.faults sink.new))
        7 (fault_line (codes "memory")) result.status }
    ensures wrote { fault ≢ WantOfMemory → Says
        (sunk (K.held sink.old) (K.held sink.new) (K.faults sink.old) (K.faults sink.new))
        6 (fault_line (image_text fault)) result.status }
{
    match fault {
        ImageFault::Memory => no_memory(sink),
        _ => refuse(sink, image_line(fault), 6),
    }
}

// Answers an image that breaks a rule of shape.
fn refuse_shape<K: Sink>(alloc: Global, fault: ShapeFault, sink: &mut K) -> WorldEnd
    ensures lab { result.lab ≡ None }
    ensures wrote { SaysOrWants
        (sunk (K.held sink.old) (K.held sink.new) (K.faults sink.old) (K.faults sink.new))
        6 (fault_line (shape_text fault)) result.status }
{
    match shape_line(alloc, fault) {
        Ok(text) => {
            let status = written(sink, text.as_bytes(), 6);
            WorldEnd { status, lab: None }
        }
        Err(Memory) => no_memory(sink),
    }
}

/// Goes on from the image that the source gives, by the script behind it. The image is judged before the script is asked for.
pub(crate) fn load<S: Source, K: Sink>(
    alloc: Global,
    line: CommandLine,
    source: &mut S,
    sink: &mut K,
) -> WorldAnswer
    requires command { line.command ≡ Load }
    requires marks { (MIN_MARKS ≤ line.marks) × (line.marks ≤ MAX_MARKS) }
    ensures { (words : List (List ℕ)) → IsCommandLine words line → IsAnsweredInWorld
        (record {
          words = words;
          left = S.left source.old;
          left_after = S.left source.new;
          read_faults = S.faults source.old;
          read_faults_after = S.faults source.new;
          held = K.held sink.old;
          held_after = K.held sink.new;
          write_faults = K.faults sink.old;
          write_faults_after = K.faults sink.new;
        })
        result }
{
    let image = match fetch_image(alloc, source) {
        Ok(image) => image,
        Err(FetchFault::Read) => return WorldAnswer::Ended(refuse(sink, b"fault: read\n", 1)),
        Err(FetchFault::Image(fault)) => return WorldAnswer::Ended(refuse_image(fault, sink)),
    };
    let config = config_for(line.marks, image.nodes, image.swaps);
    match check(alloc, image.words.words(), &config) {
        Ok(_) => run_source(alloc, line, Some(image), source, sink),
        Err(CheckError::Shape(fault)) => WorldAnswer::Ended(refuse_shape(alloc, fault, sink)),
        Err(CheckError::Memory) => WorldAnswer::Ended(no_memory(sink)),
    }
}

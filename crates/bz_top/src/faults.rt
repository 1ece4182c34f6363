//! The last line of a run that was not done.
ghost use Rattle.std.specs.Prelude.{◌≡◌, ◌≢◌, IfOk, codes, string_bytes};
ghost use Rattle.bz_image.specs.declared.fault.ImageFault.TheVariants.{Memory as WantOfMemory};
ghost use Rattle.bz_top.specs.Faults.{fault_line, broken_text, limit_text, image_text, shape_name as name_of, shape_text};

use bz_image::ImageFault;
use bz_oom::Memory;
use bz_sched::LimitKind;
use bz_script::{ScriptFault, ScriptRule};
use bz_tree::{ShapeFault, ShapeRule};
use std::alloc::Global;

/// The fault line of a rule that a line of the script breaks. Lines are counted from 1.
pub fn broken_line(alloc: Global, line: u32, rule: ScriptRule) -> Result<String, Memory>
    ensures { IfOk result (λ text. string_bytes text ≡ fault_line (broken_text line rule)) }
{
    let fault = ScriptFault::Rule { line, rule };
    let text = format!(in alloc; "fault: {fault}\n")?;
    Ok(text)
}

/// The fault line of a limit.
pub fn limit_line(which: LimitKind) -> &'static [u8]
    ensures { result.now ≡ fault_line (limit_text which) }
{
    match which {
        LimitKind::Marks => b"fault: limit marks\n",
        LimitKind::Calls => b"fault: limit calls\n",
        LimitKind::Pages => b"fault: limit pages\n",
    }
}

/// The fault line of bytes that are no image.
pub fn image_line(fault: ImageFault) -> &'static [u8]
    requires { fault ≢ WantOfMemory }
    ensures { result.now ≡ fault_line (image_text fault) }
{
    match fault {
        ImageFault::Short => b"fault: image short\n",
        ImageFault::Magic => b"fault: image magic\n",
        ImageFault::Version => b"fault: image version\n",
        ImageFault::Sizes => b"fault: image sizes\n",
        ImageFault::Long => b"fault: image long\n",
        ImageFault::Memory => unreachable!(),
    }
}

// The name of a rule of shape.
fn shape_name(rule: ShapeRule) -> &'static str
    ensures { result.now ≡ name_of rule }
{
    match rule {
        ShapeRule::Super => "super",
        ShapeRule::Word => "word",
        ShapeRule::Root => "root",
        ShapeRule::Twice => "twice",
        ShapeRule::Level => "level",
        ShapeRule::Fence => "fence",
        ShapeRule::Status => "status",
        ShapeRule::Record => "record",
        ShapeRule::Order => "order",
        ShapeRule::Key => "key",
        ShapeRule::Child => "child",
    }
}

/// The fault line of a rule of shape that an image breaks.
pub fn shape_line(alloc: Global, fault: ShapeFault) -> Result<String, Memory>
    ensures { IfOk result (λ text. string_bytes text ≡ fault_line (shape_text fault)) }
{
    let name = shape_name(fault.rule);
    let place = fault.place;
    let text = format!(in alloc; "fault: image shape {name} {place}\n")?;
    Ok(text)
}

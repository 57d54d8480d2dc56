//! What the files of a run give it.
ghost use Rattle.memory_map.specs.declared.TheConstants.{LEAST_RAM_KIB, MOST_DISK_BYTES, MOST_RAM_KIB};
ghost use Rattle.std.specs.Prelude.{◌≡◌, ◌*◌, ◌≤◌, Ok, IfOk, IfErr, OnOk, length, option_copied};
ghost use Rattle.format_model.specs.ImageFile.{ImageFits};
ghost use Rattle.machine_model.specs.Board.{AreMarked, IsPlayable};
ghost use Rattle.run_inputs.specs.Faults.{HasCause};
ghost use Rattle.run_inputs.specs.Files.{Comes};
ghost use Rattle.run_inputs.specs.Given.{inputs_in, script_max};
ghost use Rattle.run_inputs.specs.Read.{IsJudgedAs, bytes_of, given_by};

use crate::InputFault;
use crate::reading::{FileBytes, read_bytes};
use after_edge::Files;
use elf_image::Image;
use in_script::{Script, parse};
use std::alloc::Global;

/// What a run is given: the guest, what its outside does, and the bytes of its disk.
#[derive(Drop)]
pub struct Inputs {
    pub image: Image,
    pub script: Script,
    pub disk: Vec<u8>,
}

// What the bytes of the files give: the image is judged before the script.
#[tactic(auto, unfolding(crate::specs::Given::given_in))]
fn judge(alloc: Global, bytes: FileBytes, ram_kib: u32) -> Result<Inputs, InputFault>
    requires least { LEAST_RAM_KIB ≤ ram_kib }
    requires most { ram_kib ≤ MOST_RAM_KIB }
    requires short { length bytes.script.items ≤ script_max }
    ensures judged { IsJudgedAs ram_kib (bytes_of bytes) result }
    ensures fits { IfOk result (λ inputs. ImageFits (1024 * ram_kib) inputs.image) }
    ensures playable { IfOk result (λ inputs. IsPlayable inputs.script) }
    ensures marked { IfOk result (λ inputs. AreMarked inputs.script.entries) }
    ensures disk { IfOk result (λ inputs. inputs.disk.items ≡ bytes.disk.items) }
{
    let FileBytes {
        image,
        script,
        disk,
    } = bytes;
    let image = match elf_image::read(alloc, &image, ram_kib) {
        Ok(image) => image,
        Err(fault) => return Err(InputFault::of_image(fault)),
    };
    let script = match parse(alloc, &script) {
        Ok(script) => script,
        Err(fault) => return Err(InputFault::of_script(fault)),
    };
    Ok(Inputs {
        image,
        script,
        disk,
    })
}

/// Reads the files of a run, for a RAM of `ram_kib` KiB: the image's of at most 32 MiB, the script's of at most 1 MiB, and
/// the disk's of at most 16 MiB if one is named, in this order, each with its failure and its length; then it judges the
/// image, then the script. It answers the first fault. The files' content is as before.
pub fn read_inputs<F: Files>(
    alloc: Global,
    files: &mut F,
    image: &str,
    script: &str,
    disk: Option<&str>,
    ram_kib: u32,
) -> Result<Inputs, InputFault>
    requires least { LEAST_RAM_KIB ≤ ram_kib }
    requires most { ram_kib ≤ MOST_RAM_KIB }

    // What the files give, by the definitions of images and scripts, or the first fault, unless there was no memory. Their
    // count is as before unless a call of them failed.
    ensures ok { IfOk result (λ inputs. Comes (inputs_in ram_kib) (F.content files.old)
        (record { image = image.now; script = script.now; disk = option_copied disk.entry })
        (Ok (given_by inputs))) }
    ensures still { OnOk result (F.faults files.new ≡ F.faults files.old) }
    ensures cause { IfErr result (HasCause (inputs_in ram_kib) (F.content files.old)
        (record { image = image.now; script = script.now; disk = option_copied disk.entry })
        (F.faults files.old) (F.faults files.new)) }

    // What is given can be run.
    ensures fits { IfOk result (λ inputs. ImageFits (1024 * ram_kib) inputs.image) }
    ensures playable { IfOk result (λ inputs. IsPlayable inputs.script) }
    ensures marked { IfOk result (λ inputs. AreMarked inputs.script.entries) }
    ensures disk { IfOk result (λ inputs. length inputs.disk.items ≤ MOST_DISK_BYTES) }

    ensures same { F.content files.new ≡ F.content files.old }
{
    let bytes = match read_bytes(alloc, files, image, script, disk) {
        Ok(bytes) => bytes,
        Err(fault) => return Err(fault),
    };
    judge(alloc, bytes, ram_kib)
}

//! One write for each class file.

ghost use Rattle.std.specs.Prelude.{◌≡◌, IsTrue, IfOk, IfErr, OnOk, length, map, string_bytes};
ghost use Rattle.std.specs.List.{IsDistinct};
ghost use Rattle.std.specs.Str.{bytes_eq};
ghost use Rattle.par_io.specs.Causes.{NoneFalls, WriteFaultsStand};
ghost use Rattle.par_loader.specs.Reads.{class_file};
ghost use Rattle.par_class_writer.specs.Written.{IsWritten, IsUnwritten, AreWritten, IsCutOff};

use par_base::name::text_of;
use par_compile::CompiledClass;
use par_io::{Folder, NoMemory, WriteFail};
use par_loader::class_file_name;
use std::alloc::Global;

/// The names of the files of classes.
fn file_names(alloc: Global, classes: &[CompiledClass]) -> Result<Vec<String>, NoMemory>
    ensures { IfOk result (λ names.
        map string_bytes names.items ≡ map (λ c. class_file c.name) classes.now) }
{
    let mut names = Vec::with_capacity(alloc, classes.len())?;
    for class in classes {
        let name = class_file_name(alloc, text_of(class.name.bytes()))?;
        names.push(name)?;
    }
    Ok(names)
}

/// Writes the file of a class, which has this name. Nothing but the write asks for memory.
fn write_class<F: Folder>(
    alloc: Global,
    folder: &mut F,
    name: &str,
    class: &CompiledClass,
) -> Result<(), WriteFail>
    requires named { name.now ≡ class_file class.now.name }
    ensures none_falls { NoneFalls (F.counts folder.old) (F.counts folder.new) }
    ensures faults_stand { IsTrue F.counts_faults_alone →
        WriteFaultsStand result (F.counts folder.old).faults (F.counts folder.new).faults }
    ensures written { OnOk result (IsWritten class.now (F.files folder.old) (F.files folder.new)
        (F.counts folder.old) (F.counts folder.new)) }
    ensures unwritten { IfErr result (IsUnwritten class.now
        (F.files folder.old) (F.files folder.new)
        (F.counts folder.old) (F.counts folder.new)) }
{
    folder.write(alloc, name, class.bytes.as_slice())
}

/// Writes the files of classes in this order, up to the first that fails: those before it are
/// whole. No two of the classes have one name. All that the writes need is made before the first of
/// them: where memory is wanting behind that, the write that was asked for last wanted it.
pub fn write_classes<F: Folder>(
    alloc: Global,
    folder: &mut F,
    classes: &[CompiledClass],
) -> Result<(), WriteFail>
    requires apart { IsDistinct bytes_eq (map (λ c. c.name) classes.now) }
    ensures none_falls { NoneFalls (F.counts folder.old) (F.counts folder.new) }
    ensures faults_stand { IsTrue F.counts_faults_alone →
        WriteFaultsStand result (F.counts folder.old).faults (F.counts folder.new).faults }
    ensures written { OnOk result (AreWritten classes.now
        (F.files folder.old) (F.files folder.new)
        (F.counts folder.old) (F.counts folder.new)) }
    ensures cut_off { IfErr result (IsCutOff classes.now
        (F.files folder.old) (F.files folder.new)
        (F.counts folder.old) (F.counts folder.new)) }
{
    let Ok(names) = file_names(alloc, classes) else {
        return Err(WriteFail::Memory);
    };
    for (place, class) in classes.iter().enumerate() {
        write_class(alloc, folder, names[place].as_str(), class)?;
    }
    Ok(())
}

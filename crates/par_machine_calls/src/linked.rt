ghost use Rattle.std.specs.Prelude.{◌≡◌, IfOk, IsTrue};
ghost use Rattle.par_loader.specs.Judged.{begins};

use par_inputs::read_inputs;
use par_io::{MemFolder, NoMemory};
use par_link::Linked;
use par_loader::{Unloaded, linked_program, main_file};
use par_values::inputs::Inputs;
use std::alloc::Global;
use std::test::Fail;

/// A class `Shop`. Its methods are by their places `main`, which jumps over an instruction, adds 3
/// to the `next` of 4, keeps that as a local and calls `tries`; `next`, which adds 1; `tries`,
/// which calls `hit` and has a handler of null at 4; `hit`, which throws null; and the channels
/// `show` and `ask`. Constant 2 is the class, 4 that of all objects, 8 `next`, 19 the static field
/// `got` of int, 23 the field `own` of Shops, 27 and 31 the channels, 33 the class of null that is
/// met, 34 the number 70000, 37 the initializer of all objects, and 43 the field of lock 2.
pub const SHOP: &[u8] = b"\
    \xca\xfe\xba\xbe\0\0\01\0.\x01\0\x04Shop\x07\0\x01\x01\0\x10java/lang/Object\x07\0\x03\x01\0\
    \x04next\x01\0\x04(I)I\x0c\0\x05\0\x06\x0a\0\x02\0\x07\x01\0\x05tries\x01\0\x03()V\x0c\0\x09\0\
    \x0a\x0a\0\x02\0\x0b\x01\0\x03hit\x0c\0\x0d\0\x0a\x0a\0\x02\0\x0e\x01\0\x03got\x01\0\x01I\x0c\
    \0\x10\0\x11\x09\0\x02\0\x12\x01\0\x03own\x01\0\x06LShop;\x0c\0\x14\0\x15\x09\0\x02\0\x16\x01\
    \0\x04show\x01\0\x04(I)V\x0c\0\x18\0\x19\x0a\0\x02\0\x1a\x01\0\x03ask\x01\0\x03()I\x0c\0\x1c\0\
    \x1d\x0a\0\x02\0\x1e\x01\0\x1ejava/lang/NullPointerException\x07\0\x20\x03\0\x01\x11p\x01\0\
    \x06<init>\x0c\0#\0\x0a\x0a\0\x04\0$\x01\0\x0dparagon/Locks\x07\0&\x01\0\x02L2\x01\0\x01Z\x0c\
    \0(\0)\x09\0'\0*\x01\0\x04main\x01\0\x04Code\01\0\x02\0\x04\0\0\0\x02\0\x09\0\x10\0\x11\0\0\0\
    \x01\0\x14\0\x15\0\0\0\x06\0\x09\0,\0\x0a\0\x01\0-\0\0\0\x1b\0\x02\0\x01\0\0\0\x0f\xa7\0\x04\
    \x02\x06\x07\xb8\0\x08`;\xb8\0\x0c\xb1\0\0\0\0\0\x09\0\x05\0\x06\0\x01\0-\0\0\0\x10\0\x02\0\
    \x02\0\0\0\x04\x1a\x04`\xac\0\0\0\0\0\x09\0\x09\0\x0a\0\x01\0-\0\0\0\x1a\0\x01\0\0\0\0\0\x06\
    \xb8\0\x0f\xb1W\xb1\0\x01\0\0\0\x03\0\x04\0!\0\0\0\x09\0\x0d\0\x0a\0\x01\0-\0\0\0\x0e\0\x01\0\
    \0\0\0\0\x02\x01\xbf\0\0\0\0\x01\x09\0\x18\0\x19\0\0\x01\x09\0\x1c\0\x1d\0\0\0\0";

fn folder(alloc: Global, shop: &[u8]) -> Result<MemFolder, NoMemory> {
    let mut folder = MemFolder::new(alloc);
    folder.add("Shop.class", shop)?;
    Ok(folder)
}

fn loaded_from(alloc: Global, folder: &mut MemFolder) -> Result<Linked, Unloaded>
    ensures { IfOk result (λ linked. IsTrue (begins linked)) }
{
    let file = main_file(alloc, folder, "Shop")?;
    linked_program(alloc, folder, file)
}

fn loaded(alloc: Global, shop: &[u8]) -> Result<Linked, Unloaded>
    ensures { IfOk result (λ linked. IsTrue (begins linked)) }
{
    let Ok(mut folder) = folder(alloc, shop) else {
        return Err(Unloaded::Memory);
    };
    let loaded = loaded_from(alloc, &mut folder);
    drop(folder);
    loaded
}

/// The files of a class `Shop`, which link.
pub fn linked(alloc: Global, shop: &[u8]) -> Result<Linked, Fail>
    ensures { IfOk result (λ linked. IsTrue (begins linked)) }
{
    match loaded(alloc, shop) {
        Ok(linked) => Ok(linked),
        Err(_) => Err(Fail::new("the files link")),
    }
}

/// Inputs that give the number 7 to the channel `ask`.
pub fn asked(alloc: Global) -> Result<Inputs, Fail> {
    match read_inputs(alloc, b"Shop.ask: 7\n") {
        Ok(inputs) => Ok(inputs),
        Err(_) => Err(Fail::new("the line is right")),
    }
}

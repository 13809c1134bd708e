use par_base::name::Name;

/// A value of a field.
#[derive(Drop)]
pub enum Val {
    /// An `int`, or a `boolean` as 0 or 1.
    Int(i32),
    Null,
    /// An object: its class, and its number among the objects of that class, from 0.
    Ref(Name, u32),
}

/// What an observer may be shown of a run. Each variant begins with the class.
#[derive(Drop)]
pub enum Event {
    /// A number that is put out on a channel: class, channel and number.
    Out(Name, Name, i32),
    /// A write to a static field: class, field and value.
    Set(Name, Name, Val),
    /// A write to a field of an object: class and number of the object, field and value.
    Put(Name, u32, Name, Val),
    /// A new object: its class and its number.
    Born(Name, u32),
}

/// How a run ends.
#[derive(Drop)]
pub enum Ending {
    /// The run came to the end of the program.
    End,
    /// An exception of this class left the program.
    Uncaught(Name),
    /// A further step would have been beyond the bound.
    Stopped,
}

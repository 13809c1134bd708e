use par_base::list::List;
use par_base::name::Name;

/// The numbers of one input channel, the next one first.
#[derive(Drop)]
pub struct ChannelInput {
    pub class: Name,
    pub channel: Name,
    pub numbers: List<i32>,
}

/// What the input channels give. A channel that is not named gives no number.
#[derive(Drop)]
pub struct Inputs {
    pub channels: List<ChannelInput>,
}

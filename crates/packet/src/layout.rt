//! What the three layouts promise.
ghost use Rattle.packet.specs.Layouts.{InstructionStands, FragmentStands, DatagramStands, SendingStands};

/// What was written is read back, and only what could have been written is read.
pub fn layouts_stand()
    ensures instruction { InstructionStands }
    ensures fragment { FragmentStands }
    ensures datagram { DatagramStands }
    ensures sending { SendingStands }
{}

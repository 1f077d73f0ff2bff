//! Numbers that keep their range: addresses, flags and processors.

ghost use Rattle.std.specs.Prelude.{◌≡◌, ℕ, ◌<◌, ◌↔◌, IsSome, IfSome};

use std::marker::Model;

/// The addresses of a processor's memory: so many bits it has (Hillis 1985).
pub const ADDRESSES: u16 = 4096;

/// The flags of a processor (Hillis 1985).
pub const FLAGS: u8 = 16;

/// The processors of a chip (Hillis 1985).
pub const PROCESSORS: u8 = 16;

/// The address of a memory bit of a processor, 0 to 4095 (Hillis 1985).
#[derive(Clone, Copy, Debug, PartialEq, Eq)]
pub struct Addr {
    address: u16,
}

impl Model for Addr {
    ghost Value = { ℕ };

    ghost view = { λ a. a.address };

    ghost invariant = { λ a. a.address < 4096 };

    ghost inverse = { λ n. record { address = n } };
}

impl Addr {
    /// The address of this number, if it is below 4096.
    pub fn new(number: u16) -> Option<Addr>
        ensures in_range { IsSome result ↔ (number < 4096) }
        ensures value { IfSome result (λ n. n ≡ number) }
    {
        if number < 4096 {
            Some(Addr { address: number })
        } else {
            None
        }
    }

    /// The number of the address, below 4096.
    pub fn get(self) -> u16
        ensures value { result ≡ self }
        ensures in_range { result < 4096 }
    {
        self.address
    }
}

/// The number of a flag of a processor, 0 to 15 (Hillis 1985; which flag is which is ours).
#[derive(Clone, Copy, Debug, PartialEq, Eq)]
pub struct FlagNo {
    flag: u8,
}

impl Model for FlagNo {
    ghost Value = { ℕ };

    ghost view = { λ a. a.flag };

    ghost invariant = { λ a. a.flag < 16 };

    ghost inverse = { λ n. record { flag = n } };
}

impl FlagNo {
    /// Always 0: what is stored into it is dropped.
    pub const ZERO: FlagNo = FlagNo { flag: 8 };

    /// Its OR over all processors is the global wire.
    pub const GLOBAL: FlagNo = FlagNo { flag: 9 };

    /// What is stored into it goes over the grid.
    pub const NEWS: FlagNo = FlagNo { flag: 10 };

    /// What is stored into it goes along the chip's chain.
    pub const DAISY: FlagNo = FlagNo { flag: 11 };

    /// Asks the router to take a message.
    pub const SEND: FlagNo = FlagNo { flag: 12 };

    /// Tells that a message was taken.
    pub const ACK: FlagNo = FlagNo { flag: 13 };

    /// Tells that a message was delivered, and keeps out the next.
    pub const RECV: FlagNo = FlagNo { flag: 14 };

    /// The flag of this number, if it is below 16.
    pub fn new(number: u8) -> Option<FlagNo>
        ensures in_range { IsSome result ↔ (number < 16) }
        ensures value { IfSome result (λ n. n ≡ number) }
    {
        if number < 16 {
            Some(FlagNo { flag: number })
        } else {
            None
        }
    }

    /// The number of the flag, below 16.
    pub fn get(self) -> u8
        ensures value { result ≡ self }
        ensures in_range { result < 16 }
    {
        self.flag
    }
}

/// The number of a processor on its chip, 0 to 15 (Hillis 1985).
#[derive(Clone, Copy, Debug, Default, PartialEq, Eq)]
pub struct Proc {
    number: u8,
}

impl Model for Proc {
    ghost Value = { ℕ };

    ghost view = { λ a. a.number };

    ghost invariant = { λ a. a.number < 16 };

    ghost inverse = { λ n. record { number = n } };
}

impl Proc {
    /// The processor of this number, if it is below 16.
    pub fn new(number: u8) -> Option<Proc>
        ensures in_range { IsSome result ↔ (number < 16) }
        ensures value { IfSome result (λ n. n ≡ number) }
    {
        if number < 16 {
            Some(Proc { number })
        } else {
            None
        }
    }

    /// The number of the processor, below 16.
    pub fn get(self) -> u8
        ensures value { result ≡ self }
        ensures in_range { result < 16 }
    {
        self.number
    }
}

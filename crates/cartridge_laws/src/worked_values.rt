//! Worked values of the cartridge's definitions; the functions do nothing, and evaluation proves their contracts.

ghost use Rattle.cartridge_laws.specs.WorkedValues.{SquareOfC0, EighthPower, InverseOfTwo, ParityOfOneByte, ParityOfTwoBytes, GeneratorAtItsRoots, WrongByteShows, NoonInMarch, NoonInMarchIsRead, LastSecond, NoDay32, WholeCapacity, FourUsable, ThreeUsable, LastFour, FiveMarks, NewSectors, HeaderHolds, HeaderTells, HeaderIsSound, FormatCode4, HeadOfTheLongest, ShortestLength, Length151, LongestLength, NoSegment84, NoSector32, NoSpaceAtTheEnd, NameWidth, CopyOrder, Clearing, EmptyRoom, EmptyFree, OneSegment, TwoSegments, NoByte, AllSegments, FewUsable, TooFewUsable, SlotBegins, SlotDate, SlotSize, SlotWidth, SlotReadAgain, NinthWrites, StartInFront, OtherSignature, UsedBehindFree, SizeFits, SizeTooLarge, DataAlone, NoUsedSlot, DataAndFirstParity, DataAndSecondParity, DataAndLastParity, TwoData};

/// The field, the code and its parity.
pub fn code()
    ensures square { SquareOfC0 }
    ensures power { EighthPower }
    ensures inverse { InverseOfTwo }
    ensures one_byte { ParityOfOneByte }
    ensures two_bytes { ParityOfTwoBytes }
    ensures roots { GeneratorAtItsRoots }
    ensures wrong_byte { WrongByteShows }
{}

/// Date words.
pub fn dates()
    ensures noon { NoonInMarch }
    ensures read { NoonInMarchIsRead }
    ensures last { LastSecond }
    ensures no_day_32 { NoDay32 }
{}

/// What segments carry.
pub fn shape()
    ensures whole { WholeCapacity }
    ensures four { FourUsable }
    ensures three { ThreeUsable }
    ensures places { LastFour }
    ensures marks { FiveMarks }
    ensures new { NewSectors }
{}

/// The header.
pub fn header()
    ensures fields { HeaderHolds }
    ensures told { HeaderTells }
    ensures sound { HeaderIsSound }
    ensures format_code { FormatCode4 }
    ensures head { HeadOfTheLongest }
{}

/// Lengths, places and names.
pub fn places()
    ensures shortest { ShortestLength }
    ensures length { Length151 }
    ensures longest { LongestLength }
    ensures segment { NoSegment84 }
    ensures sector { NoSector32 }
    ensures name { NoSpaceAtTheEnd }
    ensures width { NameWidth }
{}

/// The order of formatting.
pub fn formatting()
    ensures copy { CopyOrder }
    ensures clearing { Clearing }
{}

/// Room, and the segments that volumes take.
pub fn room()
    ensures empty { EmptyRoom }
    ensures free { EmptyFree }
    ensures one { OneSegment }
    ensures two { TwoSegments }
    ensures no_byte { NoByte }
    ensures all { AllSegments }
    ensures few_usable { FewUsable }
    ensures too_few { TooFewUsable }
{}

/// The volume table.
pub fn table()
    ensures front { SlotBegins }
    ensures date { SlotDate }
    ensures size { SlotSize }
    ensures width { SlotWidth }
    ensures read { SlotReadAgain }
    ensures ninth { NinthWrites }
    ensures in_front { StartInFront }
    ensures signature { OtherSignature }
    ensures behind_free { UsedBehindFree }
    ensures length { SizeFits }
    ensures area { SizeTooLarge }
{}

/// The sets of the further reading of a table.
pub fn further_reading()
    ensures data_alone { DataAlone }
    ensures no_used { NoUsedSlot }
    ensures first_parity { DataAndFirstParity }
    ensures second_parity { DataAndSecondParity }
    ensures last_parity { DataAndLastParity }
    ensures two_data { TwoData }
{}

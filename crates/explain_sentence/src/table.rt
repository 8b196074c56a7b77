// The texts of the table: what is wrong, the fields and the reasons. A row more is a text more.
ghost use Rattle.std.specs.Prelude.{◌≡◌, [], ◌∷◌, length};
ghost use Rattle.base_spec.specs.Parts.{fields};
ghost use Rattle.explain_spec.specs.Sentence.{line_texts, sheet_texts, field_texts, reason_texts};

// What is wrong with a line of a sheet or a record of a text, or with what is printed without a line.
pub fn line_texts() -> [u8; 939]
    ensures { (fields result ≡ [] ∷ line_texts) × (939 ≡ length result) }
{
    *b"\
          \tno such instruction: an `Extended` base above 8, a full word there that is reserved or has another spelling, or a word outside 40960 to 45055 for LINEA, 61440 to 65535 for LINEF\
          \tthe value # does not fit field &, \
          \tno encoding, by this rule (reason &): \
          \tfewer bytes are lent than the size\
          \tthe words end before an instruction does\
          \tthe words begin with no instruction, and no instruction begins with them\
          \tnot in the form: a field that does not belong there, or a field too many or too few\
          \t`@` names no instruction line\
          \t\
          \tthe input is longer than 1 MiB\
          \t\
          \tnot S1, S2, S3, or S7, S8, S9 without data; not capitals and a line feed; a wrong length; data bytes odd in number; or the record is missing, or stands after the closing one\
          \tthe checksum of this S-record is wrong\
          \tthis S-record does not begin where the last ended, passes 2^32, or closes with another start\
          \tnot of the MC68000: the instruction, its size or an operand is of later processors\
          \t\
          \t"
}

// What is wrong outside lines.
pub fn sheet_texts() -> [u8; 851]
    ensures { (fields result ≡ [] ∷ sheet_texts) × (851 ≡ length result) }
{
    *b"\
          \t\
          \t\
          \t\
          \t\
          \tthe image is empty, or ends before the instruction at word # does (the first is 0)\
          \tthe words of the image from word # on (the first is 0) begin with no instruction, and no instruction begins with them\
          \tthe START line is not in the form: `START`, a tab and an address from 0 to 4294967295\
          \t\
          \tthe start is odd, or the end is above 2^32\
          \tthe sheet is empty, is over 65,536 bytes, does not end in a line feed, or does not have 1 to 4,096 instruction lines; S-records are over 1 MiB; or an image has over 4,096 lines\
          \tmore lines than places are lent (4,096), more words than there is room for (`sheet` and `srecord` have 16,384, `image` and `unsheet` 45,056), or a text longer than the bytes lent\
          \t\
          \t\
          \t\
          \t\
          \tthe branch at word # of the image (the first is 0) lands on no line's first word\
          \tthe sheet of the image is longer than 65,536 bytes, or than the bytes lent"
}

// The fields of 2.
pub fn field_texts() -> [u8; 1571]
    ensures { (fields result ≡ [] ∷ field_texts) × (1571 ≡ length result) }
{
    *b"\
          \tthe displacement byte of a short branch, which holds -128 to 127, not 0 or -1\
          \tthe displacement word of a word branch or a DBcc, which holds -32768 to 32767\
          \tthe displacement word of d16(PC), which holds -32768 to 32767\
          \tthe displacement byte of d8(PC,Xn), which holds -128 to 127\
          \tthe displacement word of d16(An), and of MOVEP, which holds -32768 to 32767\
          \tthe displacement byte of d8(An,Xn), which holds -128 to 127\
          \tan absolute short address, read as signed, which holds -32768 to 32767, written with 4294967296 added where below 0\
          \tan absolute address, which holds 0 to 4294967295 (a value from 2^63 on is shown below 0)\
          \tan immediate, which holds -128 to 255 as a byte and -32768 to 65535 as a word, written with 4294967296 added where below 0, and 0 to 4294967295 as a long\
          \tthe count of ADDQ, SUBQ and a shift by an immediate, which holds 1 to 8\
          \tthe vector of TRAP, which holds 0 to 15\
          \ta static bit number, which holds 0 to 255\
          \tthe displacement of LINK, read as signed, which holds -32768 to 32767, written with 4294967296 added where below 0\
          \ta register number, which holds 0 to 7\
          \tthe displacement of RTD, read as signed, which holds -32768 to 32767, written with 4294967296 added where below 0\
          \tthe vector of BKPT, which holds 0 to 7\
          \ta base displacement written in a word, which holds -32768 to 32767\
          \tan outer displacement written in a word, which holds -32768 to 32767\
          \ta displacement written as none, which holds 0\
          \tthe offset and the width of a bit field, of which the larger is reported even where the smaller is at fault, which holds 0 to 31 each, in a register 0 to 7"
}

// The reasons of 3.
pub fn reason_texts() -> [u8; 2785]
    ensures { (fields result ≡ [] ∷ reason_texts) × (2785 ≡ length result) }
{
    *b"\
          \tthe register there is a data register\
          \tthe register there is an address register\
          \tthe operand there is a data register\
          \tan index register is a word or a long\
          \t`movep` reaches memory through `d16(An)` only\
          \t`movep` moves a word or a long\
          \tan address register is never read a byte at a time\
          \t`move` reads any operand\
          \t`move` writes a data alterable operand; into an address register it is `movea`\
          \t`movea` moves a word or a long\
          \t`movea` reads any operand\
          \t`tst` reads any operand\
          \t`move sr` writes a data alterable operand\
          \t`move ccr` writes a data alterable operand\
          \t`move` into `ccr` reads a data operand\
          \t`move` into `sr` reads a data operand\
          \t`nbcd` writes a data alterable operand\
          \t`pea` takes a control operand\
          \t`ext` widens a byte to a word or a long, or a word to a long\
          \t`movem` moves words or longs\
          \t`movem` writes registers to a control alterable operand or `-(An)`\
          \t`movem` reads registers from a control operand or `(An)+`\
          \t`tas` writes a data alterable operand\
          \t`moves` takes a memory alterable operand\
          \t`jsr` takes a control operand\
          \t`jmp` takes a control operand\
          \t`chk` reads a data operand\
          \ta multiply reads a data operand\
          \ta divide reads a data operand\
          \t`cas` takes a memory alterable operand\
          \t`cas2` compares words or longs\
          \ta bit field written is in a data register or a control alterable operand\
          \ta bit field read is in a data register or a control operand\
          \t`lea` takes a control operand\
          \t`Scc` writes a data alterable operand\
          \tthe conditions `t` and `f` of a branch are `bra` and `bsr`\
          \t`suba` reads any operand\
          \ta line A word begins with `$A`\
          \t`cmp` reads any operand\
          \t`cmpa` reads any operand\
          \t`cmpm` compares two `(An)+` operands\
          \t`eor` writes a data alterable operand\
          \t`exg` of a data and an address register is written data register first\
          \t`adda` reads any operand\
          \ta line F word begins with `$F`\
          \t`cmpi` compares with a data operand other than an immediate\
          \tan immediate instruction writes a data alterable operand\
          \t`pack` and `unpk` take two data registers or two `-(An)`\
          \t`chk2` and `cmp2` read their bounds from a control operand\
          \t`btst` reads a data operand\
          \ta bit instruction writes a data alterable operand\
          \ta static `btst` reads a data operand other than an immediate\
          \ta bit number is a data register or an immediate\
          \tthe instruction takes a data alterable operand\
          \tan address register is never written a byte at a time\
          \ta quick form writes an alterable operand\
          \t`and` and `or` read a data operand\
          \t`and` and `or` write a data register or memory; an immediate is `andi` or `ori`\
          \t`add` and `sub` read any operand\
          \t`add` and `sub` write a register or memory, from a data register\
          \tan address register takes a word or a long\
          \tthe extend group takes `Dy,Dx` or `-(Ay),-(Ax)`\
          \ta shift count is a data register or 1 to 8\
          \ta shift in memory shifts a word by one place\
          \ta shift in memory writes a memory alterable operand"
}

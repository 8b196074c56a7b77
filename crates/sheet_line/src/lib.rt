// What a sheet's line says: its fields, each by the kind that is next after those before it, and the instruction that they make.
#![tactic(auto)]

ghost use Rattle.std.specs.Prelude.{◌≡◌, ◌≤◌, ◌<◌, cond, [], length};
ghost use Rattle.sheet_spec.specs.Line.{line_of};
ghost use Rattle.sheet_labels.specs.Labels.{address_in, aimed_to};
ghost use Rattle.sheet_line.specs.Value.{is_said, variant_place};
ghost use Rattle.sheet_line.specs.LineMade.{not_made, line_made};
ghost use Rattle.sheet_line.specs.LineRead.{not_read, read_more, Holds, FieldsRead};

use numeric_spec::Built;
use sheet_tokens::Value;

// What a line makes, whether it has a label, and whether each label names a line.
#[derive(Clone, Copy)]
pub struct LineMade {
    pub built: Built,
    pub labelled: bool,
    pub resolves: bool,
}

// What a line's fields say beside their numbers: how many they are, whether there is a label, and whether each label names a line. Not ok where the line is not in the form.
#[derive(Clone, Copy)]
pub struct LineRead {
    pub ok: bool,
    pub count: usize,
    pub labelled: bool,
    pub resolves: bool,
}

fn says(v: Option<Value>) -> bool
    ensures { result ≡ is_said v }
{
    match v {
        Some(Value::Number { .. }) => true,
        Some(Value::Line(_)) => true,
        None => false,
    }
}

// The place that a variant's name says; 0 of a label, whose kind has no fields.
fn variant_place(v: Option<Value>) -> u64
    ensures { result ≡ variant_place v }
{
    match v {
        Some(Value::Number { magnitude, .. }) => magnitude,
        Some(Value::Line(_)) => 0,
        None => 0,
    }
}

// Of a line that is not in the form.
fn not_made() -> LineMade
    ensures { result ≡ not_made }
{
    LineMade {
        built: Built::NotInForm,
        labelled: false,
        resolves: true,
    }
}

// Of a line that is not in the form, and of one none of whose fields is read yet.
fn not_read(
    negative: &mut [bool; 24],
    magnitude: &mut [u64; 24],
    label: &mut [bool; 24],
) -> LineRead
    ensures { Holds not_read [] result negative.new magnitude.new label.new }
{
    *negative = [false; 24];
    *magnitude = [0; 24];
    *label = [false; 24];
    LineRead {
        ok: false,
        count: 0,
        labelled: false,
        resolves: true,
    }
}

// One field more.
fn read_more(r: LineRead, v: Option<Value>, lines: usize) -> LineRead
    requires { r.count < 24 }
    ensures { result ≡ read_more lines r v }
{
    LineRead {
        ok: false,
        count: r.count + 1,
        labelled: r.labelled | sheet_labels::says_label(v),
        resolves: r.resolves & sheet_labels::names_line(v, lines),
    }
}

// A line of a sheet of so many lines; what its fields say is put in 24 places.
pub fn read_fields(
    line: &[u8],
    lines: usize,
    negative: &mut [bool; 24],
    magnitude: &mut [u64; 24],
    label: &mut [bool; 24],
) -> LineRead
    requires { lines ≤ 4096 }
    ensures { FieldsRead lines (line_of line.now) result negative.new magnitude.new label.new }
{
    let mut r = not_read(negative, magnitude, label);
    let mut kinds = sheet_kinds::INSTRUCTION;
    let mut from: usize = 0;
    while from <= line.len() {
        if kinds == 0 {
            return not_read(negative, magnitude, label);
        }
        let end = base_text::field_end(line, from);
        let v = sheet_field::value(sheet_kinds::first(kinds), &line[from..end]);
        if !says(v) {
            return not_read(negative, magnitude, label);
        }
        let at = r.count;
        negative[at] = sheet_labels::below_zero(v);
        magnitude[at] = sheet_labels::own_number(v);
        label[at] = sheet_labels::says_label(v);
        r = read_more(r, v, lines);
        kinds = sheet_kinds::next(kinds, variant_place(v));
        from = end + 1;
    }
    if kinds != 0 {
        return not_read(negative, magnitude, label);
    }
    r.ok = true;
    r
}

// A number, or of a label the address of its line.
fn aim(addresses: &[u32], label: bool, number: u64) -> u64
    ensures { result ≡ cond label (address_in addresses.now number) number }
{
    if label {
        return sheet_labels::address_in(addresses, number);
    }
    number
}

// Each label of the first places made its line's address.
fn aim_all(count: usize, addresses: &[u32], label: &[bool; 24], magnitude: &mut [u64; 24])
    requires { count ≤ 24 }
    ensures { magnitude.new ≡ aimed_to count (address_in addresses.now) label.now magnitude.old }
{
    let mut i: usize = 0;
    while i < count {
        magnitude[i] = aim(addresses, label[i], magnitude[i]);
        i += 1;
    }
}

// A line of a sheet of so many lines, each label made its line's address.
pub fn read_line(line: &[u8], lines: usize, addresses: &[u32]) -> LineMade
    requires { (lines ≤ 4096) × (length addresses.now ≤ 4096) }
    ensures { result ≡ line_made lines addresses.now (line_of line.now) }
{
    let mut negative: [bool; 24] = [false; 24];
    let mut magnitude: [u64; 24] = [0; 24];
    let mut label: [bool; 24] = [false; 24];
    let r = read_fields(line, lines, &mut negative, &mut magnitude, &mut label);
    if !r.ok {
        return not_made();
    }
    if r.labelled {
        aim_all(r.count, addresses, &label, &mut magnitude);
    }
    let built = numeric_build::build_in(r.count, &negative, &magnitude, 0);
    LineMade {
        built,
        labelled: r.labelled,
        resolves: r.resolves,
    }
}

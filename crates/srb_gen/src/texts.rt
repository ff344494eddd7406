//! The names and the texts of the files.

ghost use Rattle.std.specs.Prelude.{◌≡◌, ◌<◌, string_bytes, IfOk};
ghost use Rattle.srb_gen.specs.Texts.{four_digits, file_path, class_name, file_text, first_expression, first_text, last_text};

use srb_terms::NoMemory;
use std::alloc::Global;

fn four_digits(alloc: Global, number: u16) -> Result<String, NoMemory>
    requires { number < 10000 }
    ensures { IfOk result (λ s. string_bytes s ≡ four_digits number) }
{
    let thousands = number / 1000 % 10;
    let hundreds = number / 100 % 10;
    let tens = number / 10 % 10;
    let ones = number % 10;
    format!(in alloc; "{thousands}{hundreds}{tens}{ones}")
}

pub fn file_path(alloc: Global, number: u16) -> Result<String, NoMemory>
    requires { number < 10000 }
    ensures { IfOk result (λ s. string_bytes s ≡ file_path number) }
{
    let digits = four_digits(alloc, number)?;
    format!(in alloc; "g{digits}.rb")
}

fn class_name(alloc: Global, number: u16) -> Result<String, NoMemory>
    requires { number < 10000 }
    ensures { IfOk result (λ s. string_bytes s ≡ class_name number) }
{
    let digits = four_digits(alloc, number)?;
    format!(in alloc; "G{digits}")
}

fn file_text(
    alloc: Global,
    name: &str,
    declared: &str,
    expression: &str,
) -> Result<String, NoMemory>
    ensures { IfOk result (λ s. string_bytes s ≡ file_text name.now declared.now expression.now) }
{
    format!(in alloc;
        "# typed: true\nclass {name}\n  extend T::Sig\n  sig {{ params(x: Integer).returns({declared}) }}\n  def run(x)\n    {expression}\n  end\nend\n"
    )
}

fn first_expression(alloc: Global, number: u16) -> Result<String, NoMemory>
    requires { number < 10000 }
    ensures { IfOk result (λ s. string_bytes s ≡ first_expression number) }
{
    if number == 0 {
        return String::from_str(alloc, "x + 1");
    }
    let before = class_name(alloc, number - 1)?;
    format!(in alloc; "{before}.new.run(x)")
}

/// The text of the file of this number at the start.
pub fn first_text(alloc: Global, number: u16) -> Result<String, NoMemory>
    requires { number < 10000 }
    ensures { IfOk result (λ s. string_bytes s ≡ first_text number) }
{
    let name = class_name(alloc, number)?;
    let expression = first_expression(alloc, number)?;
    file_text(alloc, name.as_str(), "Integer", expression.as_str())
}

/// The text that the session changes it to.
pub fn last_text(alloc: Global, number: u16) -> Result<String, NoMemory>
    requires { number < 10000 }
    ensures { IfOk result (λ s. string_bytes s ≡ last_text number) }
{
    let name = class_name(alloc, number)?;
    if number % 3 == 0 {
        return file_text(alloc, name.as_str(), "Integer", "\"a\"");
    }
    if number % 3 == 1 {
        let expression = first_expression(alloc, number)?;
        return file_text(alloc, name.as_str(), "String", expression.as_str());
    }
    file_text(alloc, name.as_str(), "Integer", "\"b\".length")
}

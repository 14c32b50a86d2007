// The text before the functions: the start of the run, and the two routines.
ghost use Rattle.std.specs.Prelude.{◌≡◌, ◌++◌, [], ℕ, List, OnOk, codes, slice_get};
ghost use Rattle.rv_code.specs.declared.assembly.AsmFunction.{AsmFunction};
ghost use Rattle.rv_code.specs.Routines.{buffer_code};
ghost use Rattle.rv_code.specs.Text.{name_of, code_text, entry_text, getchar_text, putchar_text, start_text};

use crate::instr::put_cdata;
use cp_base::Bytes;
use std::alloc::AllocError;

// `buffer` is the offset of the buffer byte in the data.
pub fn put_start(out: &mut Bytes, buffer: u128) -> Result<(), AllocError>
    ensures { (functions : List AsmFunction) (main : ℕ)
        → name_of (slice_get functions main) ≡ codes "main"
        → OnOk result (out.new ≡ out.old ++ start_text functions main buffer) }
{
    put_entry(out)?;
    put_getchar(out, buffer)?;
    put_putchar(out, buffer)
}

fn put_entry(out: &mut Bytes) -> Result<(), AllocError>
    ensures { (functions : List AsmFunction) (main : ℕ)
        → name_of (slice_get functions main) ≡ codes "main"
        → OnOk result (out.new ≡ out.old ++ entry_text functions main) }
{
    out.push_all(
        b"\t.text\n\
        \t.globl _start\n\
        _start:\n\
        \tlui t0, %hi(c_main)\n\
        \tjalr ra, %lo(c_main)(t0)\n\
        \taddi a7, zero, 93\n\
        \tecall\n",
    )
}

fn put_getchar(out: &mut Bytes, buffer: u128) -> Result<(), AllocError>
    ensures { OnOk result (out.new ≡ out.old ++ getchar_text buffer) }
{
    out.push_all(
        b"c_getchar:\n\
        \taddi a0, zero, 0\n",
    )?;
    put_buffer_address(out, buffer)?;
    out.push_all(
        b"\taddi a2, zero, 1\n\
        \taddi a7, zero, 63\n\
        \tecall\n\
        \tbge zero, a0, .Lend\n\
        \tlbu a0, 0(a1)\n\
        \tjalr zero, 0(ra)\n\
        .Lend:\n\
        \taddi a0, zero, -1\n\
        \tjalr zero, 0(ra)\n",
    )
}

fn put_putchar(out: &mut Bytes, buffer: u128) -> Result<(), AllocError>
    ensures { OnOk result (out.new ≡ out.old ++ putchar_text buffer) }
{
    out.push_all(
        b"c_putchar:\n\
        \tandi t1, a0, 255\n",
    )?;
    put_buffer_address(out, buffer)?;
    out.push_all(
        b"\tsb t1, 0(a1)\n\
        \taddi a0, zero, 1\n\
        \taddi a2, zero, 1\n\
        \taddi a7, zero, 64\n\
        \tecall\n\
        \taddi a0, t1, 0\n\
        \tjalr zero, 0(ra)\n",
    )
}

fn put_buffer_address(out: &mut Bytes, buffer: u128) -> Result<(), AllocError>
    ensures { OnOk result (out.new ≡ out.old ++ code_text [] (buffer_code buffer)) }
{
    out.push_all(b"\tlui a1, %hi(")?;
    put_cdata(out, buffer)?;
    out.push_all(b")\n\taddi a1, a1, %lo(")?;
    put_cdata(out, buffer)?;
    out.push_all(b")\n")
}
